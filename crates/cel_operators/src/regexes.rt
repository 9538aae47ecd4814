//! From a pattern's text to what `regex` makes of it.
ghost use Rattle.std.specs.Prelude.{◌≡◌, List, ℕ, true, IfOk, IfErr, IsSome};
ghost use Rattle.regex.specs.Patterns.{Refuses, default_config};
ghost use Rattle.regex.specs.Sources.{IsRefusal};
ghost use Rattle.regex.specs.Failures.{IsRightKind};
ghost use Rattle.base_containers.specs.Failures.{IfFault};
ghost use Rattle.base_containers.specs.declared.failed.Failed.TheVariants.{OutOfMemory};
ghost use Rattle.cel_operators.specs.PatternMeaning.{tree_of};
ghost use Rattle.cel_operators.specs.Building.{IsRegexOf, IsProgramOf, IsReason};

use crate::{PatternFault, Unbuilt};
use regex::{Error, Regex};
use regex_meta::Program;
use regex_syntax::{Config, ErrorKind, Parsed};
use std::alloc::{AllocError, Global};

/// About how many bytes a program may take: the default of `regex`.
const MOST_BYTES: usize = 10 << 20;

/// The pattern of a text, as `regex` builds it.
pub fn regex_of(alloc: Global, text: &str) -> Result<Regex, Unbuilt>
    ensures regex { IfOk result (IsRegexOf text.now) }
    ensures is_pattern { IfOk result (λ _. IsSome (tree_of text.now)) }
    ensures refused { IfErr result (IfFault (IsReason text.now)) }
{
    match Regex::new(alloc, text) {
        Ok(regex) => Ok(regex),
        Err(error) => Err(refused(error)),
    }
}

/// Why `regex` refused a text.
fn refused(error: Error) -> Unbuilt
    ensures memory { result ≡ OutOfMemory → error ≡ Error.OutOfMemory }
    ensures reason { (text : List ℕ) → IsRefusal default_config text error → IsRightKind default_config text error
        → IfFault (IsReason text) result }
{
    match error {
        Error::OutOfMemory => Unbuilt::OutOfMemory,
        Error::Syntax(_) => Unbuilt::Fault(PatternFault::NoPattern),
        Error::CompiledTooBig => Unbuilt::Fault(PatternFault::TooLarge),
        Error::Internal => Unbuilt::Fault(PatternFault::TooLarge),
    }
}

/// Whether `regex` builds a text.
pub fn builds(alloc: Global, text: &str) -> Result<bool, AllocError>
    ensures { IfOk result (λ built. built ≡ true → IsSome (tree_of text.now)) }
{
    match regex_of(alloc, text) {
        Ok(_regex) => Ok(true),
        Err(Unbuilt::OutOfMemory) => Err(AllocError),
        Err(_) => Ok(false),
    }
}

/// The program of the same text. `regex` lends none of its own.
pub fn program_of(alloc: Global, text: &str) -> Result<Program, Unbuilt>
    ensures program { IfOk result (IsProgramOf text.now) }
    ensures refused { IfErr result (IfFault (IsReason text.now)) }
{
    match regex_syntax::parse(alloc, text, &Config::default()) {
        Ok(parsed) => program_from(alloc, parsed),
        Err(error) => Err(unread(error.kind)),
    }
}

/// Why a text was not read.
fn unread(kind: ErrorKind) -> Unbuilt
    ensures memory { result ≡ OutOfMemory → kind ≡ ErrorKind.OutOfMemory }
    ensures reason { (text : List ℕ) → Refuses default_config text kind → IfFault (IsReason text) result }
{
    match kind {
        ErrorKind::OutOfMemory => Unbuilt::OutOfMemory,
        _ => Unbuilt::Fault(PatternFault::NoPattern),
    }
}

/// The program of what was read.
fn program_from(alloc: Global, parsed: Parsed) -> Result<Program, Unbuilt>
    ensures program { IfOk result (λ p. p.hir ≡ parsed.hir) }
    ensures refused { (text : List ℕ) → IsSome (tree_of text) → IfErr result (IfFault (IsReason text)) }
{
    let Parsed { hir, names } = parsed;
    let Ok(groups) = u32::try_from(names.len()) else {
        return Err(Unbuilt::Fault(PatternFault::TooLarge));
    };
    match Program::new(alloc, hir, groups, MOST_BYTES) {
        Ok(program) => Ok(program),
        Err(regex_compile::Error::OutOfMemory) => Err(Unbuilt::OutOfMemory),
        Err(_) => Err(Unbuilt::Fault(PatternFault::TooLarge)),
    }
}
