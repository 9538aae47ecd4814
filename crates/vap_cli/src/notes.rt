//! What the help of each command says after its words.

pub const EVAL_NOTES: &str = "\
Prints one line, and ends with the status after it:
  VALUE                  the value, as compact JSON                  0
  error: NAME            the evaluation ends with this error         1
  refused: NAME at BYTE  the text is no expression, or has no type:
                         what is wrong, and where                    1
  refused: OverBudget N  it may charge N, which is more than
                         10000000                                    1

BYTE counts from 0. What a refusal or an error means is on standard error. Other
statuses, with the reason on standard error, are 2 for a bad command line, 3 if a write
failed and 4 if memory ran out. The language, and each NAME, is described in
docs/LANGUAGE.md, beside the program's sources.

An expression that begins with a minus goes after `--`, or in parentheses.

Examples:
  vap eval '1 + 2 * 3 == 7 && !(4 < 3)'
  vap eval -- '-7 / 2'";

pub const CHECK_NOTES: &str =
    r#"FILE, or standard input if it is `-`, has at most 1048576 bytes. It is a JSON object:

  {
    "schema": {
      "type": "object",
      "properties": {"spec": {"type": "object", "properties": {
        "items": {"type": "array", "maxItems": 100, "items": {"type": "string", "maxLength": 50}}
      }}}
    },
    "expression": "object.spec.items.all(x, size(x) < 10)",
    "object": {"spec": {"items": ["ab", "abc"]}}
  }

The schema is that of a CustomResourceDefinition, the one name in scope is `object`, and an
object need not be given. For this file the answer is:

  estimate 904           the most that the expression charges, for any object
  value true             the value, as compact JSON, or `error: NAME`
  charged 14             what it charged

The status is 0 if the value is true or there is no object, else 1. A file, a schema, an
expression or an object that is refused gives a line `refused: NAME`, with `at BYTE` after
it if the expression is at fault, and status 1. What it means, and where it is, is on
standard error. Other statuses are 2 for a bad command line, 3 if FILE does not open, or a
read or a write failed, and 4 if memory ran out.

Examples:
  vap check examples/rule.json
  vap check - < examples/rule.json"#;

pub const ENCODE_NOTES: &str = "\
Writes the bytes to standard output, and ends with the status 0. An expression that is
refused gives a line `refused: NAME at BYTE`, as of `vap eval`, and one whose image has a type
too deep for the format `refused: NoSpelling`; the status is then 1. Other statuses are 2 for a
bad command line, 3 if a write failed, and 4 if memory ran out. The format is described
in docs/LANGUAGE.md, beside the program's sources.

Example:
  vap image encode '[1, 2].all(x, x > 0)' > image.bin";

pub const DECODE_NOTES: &str = "\
FILE has at most 1048576 bytes. Prints a line for each slot, constant and target, for the type
of the outcome and for each instruction; then the most steps that a run takes, the most that
it charges and the most operands that it has at a time; and, if there are no slots, what
the run gives, `value V` or `error: NAME`, and `charged N`.

Bytes that are no image give `refused: NAME`, and an image that is not accepted ends with
`refused: NAME at N`, where N is the number of an instruction. The status is 0 if the image
is accepted and gives no error, else 1. Other statuses are 2 for a bad command line, 3 if
FILE does not open, or a read or a write failed, and 4 if memory ran out. The instructions, and
each NAME, are described in docs/LANGUAGE.md, beside the program's sources.

Example:
  vap image encode '1 + 2' | vap image decode -";

pub const REPLAY_NOTES: &str = "\
Each line is a watch event, a List or an AdmissionReview, as JSON; a line that is empty, or a
carriage return alone, is skipped. An event changes the objects for the lines after it. Each
review is answered by the policies that there are then, one line of compact JSON each, in order;
with --audit, at the end a line follows for each review.

On a terminal, standard error shows once a second how many lines were read, how many reviews are
answered a second, and the revision. With --summary it has a table at the end, a line for each
policy with each of its bindings: over how many reviews it was evaluated, how many of these it
denied, warned of and kept, how many evaluations ended with an error, what it charged at the most
and on the average, and what it may charge for one param; and then how long a review takes.

The first line that is refused ends the run, with `line N: NAME` on standard error and the
status 1; what was answered before it stays. Other statuses are 2 for a bad command line, 3
if FILE does not open, or a read or a write failed, and 4 if memory ran out. What lines
may hold, and each NAME, is described in docs/EVENTS.md and docs/REPLAY.md, beside the
program's sources.

Examples:
  vap replay examples/stream.jsonl
  vap replay --audit --workers 4 - < examples/stream.jsonl";

pub const REPORT_NOTES: &str = "\
FILE, or standard input if it is `-`, is a stream as for `vap replay`, whose reviews are passed
over, or one JSON document of any layout and at most 67108864 bytes: a List, a watch event or an
object, as kubectl prints them. The report is on the objects that it leaves.

For each policy, at each known kind that its rules name, there is a line `KIND: accepted, N of
100000000`, where N is what all its expressions may charge together for one param, and below it
each expression with what it may charge, of 10000000; or a line `KIND: refused: NAME`, and below it
the field of the policy, the line of the expression with a caret under the place, and what is
wrong. A policy that names no known kind is reported at the kinds that are not known. Then there are
lines for bindings without a policy, policies without a binding, policies that name no known kind,
kinds of params that are not known and kinds whose schema is refused, and at the end how many are
accepted and refused. With --output json the same is one line of JSON, which docs/REPORT.md
describes, beside the program's sources.

The status is 0 if none is refused, else 1. An input that is refused gives `line N: NAME` and
what is wrong on standard error, and status 1. Other statuses are 2 for a bad command line, 3 if
FILE does not open, or a read or a write failed, and 4 if memory ran out.

Examples:
  vap report examples/stream.jsonl
  kubectl get crd,validatingadmissionpolicies,validatingadmissionpolicybindings,configmaps -A -o json | vap report -";

pub const KINDS_NOTES: &str = "\
FILE, or standard input if it is `-`, has at most 67108864 bytes. It is an OpenAPI v3 document as
an API server serves it. For each kind whose objects are served by name there is a line: the event
that adds a CustomResourceDefinition with the kind's schema, so that `vap replay` and `vap report`
know the kind. A `$ref` is put in place; a schema inside itself, and what has no type of one kind,
is left open there. Descriptions, patterns and what else schemas say is left out.

The status is 0. A document that is refused gives what is wrong, and where, on standard error, and
status 1. Other statuses are 2 for a bad command line, 3 if FILE does not open, or a read or a
write failed, and 4 if memory ran out.

Example:
  kubectl get --raw /openapi/v3/apis/apps/v1 | vap kinds - > kinds.jsonl";
