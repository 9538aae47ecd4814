//! Reviews that are judged where they are read, while they are open.

ghost use Rattle.std.specs.Prelude.{◌≡◌, IfOk, IfSome, IsErrOf, List, None};
ghost use Rattle.base_containers.specs.declared.failed.Failed.TheVariants.{Fault};
ghost use Rattle.cel_machine.specs.declared.fault.RunFault.TheVariants.{Pattern};
ghost use Rattle.vap_audit.specs.Verdicts.{MayMatch};
ghost use Rattle.vap_watch.specs.Logs.{set_of};
ghost use Rattle.vap_watch.specs.declared.log.Logged.{Logged};
ghost use Rattle.vap_cli_lines.specs.Judged.{AnswersAt, IsJudgedAt, IsOfReview};

use crate::answer::{ReviewAnswer, answer_line};
use crate::line::Line;
use base_containers::Part;
use cel_machine::Matchers;
use json::Scratch;
use std::alloc::Global;
use vap_audit::judge_open;
use vap_match::OpenRequest;
use vap_policy::JudgeError;
use vap_watch::Snapshot;

/// A line that was read, and what judging it gave, if it is a review and was judged where it was read.
#[derive(Drop)]
pub struct ReadLine {
    pub line: Line,
    pub answer: Option<Result<ReviewAnswer, JudgeError>>,
}

impl ReadLine {
    /// A line that is not judged.
    pub fn new(line: Line) -> ReadLine
        ensures line { result.line ≡ line }
        ensures answer { result.answer ≡ None }
        ensures judged { (log : List Logged) → IsJudgedAt log result.line result.answer }
    {
        ReadLine { line, answer: None }
    }

    /// The same line, as one that is not judged.
    pub(crate) fn unjudged(self) -> ReadLine
        ensures line { result.line ≡ self.line }
        ensures judged { (log : List Logged) → IsJudgedAt log result.line result.answer }
    {
        let ReadLine { line, .. } = self;
        ReadLine::new(line)
    }
}

/// What is kept from one line to the next, on which no answer depends: the room in which a document is opened, and the patterns that are
/// built.
#[derive(Drop)]
pub(crate) struct Workspace {
    pub(crate) alloc: Global,
    pub(crate) scratch: Scratch,
    pub(crate) matchers: Matchers,
}

impl Workspace {
    pub(crate) fn new(alloc: Global) -> Workspace {
        Workspace {
            alloc,
            scratch: Scratch::new(alloc),
            matchers: Matchers::new(alloc),
        }
    }
}

/// At which snapshot reviews are judged, and the patterns that are kept for that.
#[derive(Drop)]
pub(crate) struct Judge<'a> {
    pub(crate) snapshot: &'a Snapshot,
    pub(crate) matchers: &'a mut Matchers,
}

/// What judging a line gives, if it is a review, of this document.
pub(crate) fn judged(
    alloc: Global,
    line: &Line,
    document: Part<'_, '_>,
    judge: Option<Judge<'_>>,
) -> Option<Result<ReviewAnswer, JudgeError>>
    requires { IsOfReview line.now document }
    ensures { IfSome judge.entry (λ j. IsJudgedAt j.snapshot.now line.now result) }
{
    let Some(judge) = judge else {
        return None;
    };
    match line {
        Line::Asks(request) => {
            let open = OpenRequest::new(request, document);
            Some(answered(alloc, judge.snapshot, &open, judge.matchers))
        }
        _ => None,
    }
}

/// The answer to a review that is open.
fn answered(
    alloc: Global,
    snapshot: &Snapshot,
    open: &OpenRequest<'_, '_, '_>,
    matchers: &mut Matchers,
) -> Result<ReviewAnswer, JudgeError>
    ensures answer { IfOk result (AnswersAt snapshot.now open.now.request.now) }
    ensures pattern { IsErrOf result (Fault Pattern) → MayMatch (set_of snapshot.now) open.now.request.now }
{
    let verdict = judge_open(alloc, snapshot, open, matchers)?;
    let line = answer_line(alloc, open.request.admission().uid.as_str(), &verdict)?;
    Ok(ReviewAnswer { verdict, line })
}
