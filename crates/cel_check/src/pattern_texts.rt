//! The literal texts that `matches` is given in an expression, and whether they are patterns, asked before it is typed.

ghost use Rattle.std.specs.Prelude.{◌≡◌, ◌++◌, OnOk};
ghost use Rattle.cel_operators.specs.PatternAnswers.{AsksOnly, Grows};
ghost use Rattle.cel_check.specs.PatternTexts.{patterns_in, seen, seen_each, seen_entries, AreAnswered};
ghost use Rattle.cel_check.specs.PatternTexts.{of_each, of_entries, of_method, one_or_none};

use base_containers::Text;
use cel_operators::Patterns;
use cel_value::{Entry, Expr, Syntax};
use std::alloc::{AllocError, Global};

/// Asks for each literal text that `matches` is given in an expression whether it is a pattern, and for no other text.
pub fn ask(alloc: Global, expr: &Expr, patterns: &mut Patterns) -> Result<(), AllocError>
    ensures answered { OnOk result (AreAnswered patterns.new (patterns_in expr.now)) }
    ensures only { AsksOnly patterns.old patterns.new (patterns_in expr.now) }
    ensures grows { Grows patterns.old patterns.new }
{
    let mut texts = Vec::new(alloc);
    gather_patterns(expr, &mut texts)?;
    ask_each(alloc, texts.as_slice(), patterns)
}

fn ask_each(alloc: Global, texts: &[Text], patterns: &mut Patterns) -> Result<(), AllocError>
    ensures answered { OnOk result (AreAnswered patterns.new texts.now) }
    ensures only { AsksOnly patterns.old patterns.new texts.now }
    ensures grows { Grows patterns.old patterns.new }
{
    for text in texts {
        patterns.look_up(alloc, text.as_str())?;
    }
    Ok(())
}

/// Puts each literal text that `matches` is given in an expression after the texts that are there, from left to right.
#[cycle(gathering)]
pub fn gather_patterns(expr: &Expr, texts: &mut Vec<Text>) -> Result<(), AllocError>
    ensures { OnOk result (texts.new.items ≡ texts.old.items ++ patterns_in expr.now) }
{
    match &expr.form {
        Syntax::Bool(_)
        | Syntax::Int(_)
        | Syntax::Name(_)
        | Syntax::Null
        | Syntax::Uint(_)
        | Syntax::Text(_) => Ok(()),
        Syntax::Select(operand, _) | Syntax::Has(operand, _) | Syntax::Unary(_, operand) => {
            gather_patterns(operand.get(), texts)
        }
        Syntax::Index(left, right)
        | Syntax::Binary(_, left, right)
        | Syntax::And(left, right)
        | Syntax::Or(left, right)
        | Syntax::Loop(_, left, _, right) => {
            gather_patterns(left.get(), texts)?;
            gather_patterns(right.get(), texts)
        }
        Syntax::Conditional(first, second, third) | Syntax::MapWhere(first, _, second, third) => {
            gather_patterns(first.get(), texts)?;
            gather_patterns(second.get(), texts)?;
            gather_patterns(third.get(), texts)
        }
        Syntax::Call(_, parts) | Syntax::List(parts) => gather_each(parts.as_slice(), texts),
        Syntax::Map(entries) => gather_entries(entries.as_slice(), texts),
        Syntax::Method(operand, name, parts) => {
            gather_patterns(operand.get(), texts)?;
            gather_each(parts.as_slice(), texts)?;
            gather_of_method(name.as_str(), parts.as_slice(), texts)
        }
    }
}

// The same for several expressions.
#[cycle(gathering)]
fn gather_each(parts: &[Expr], texts: &mut Vec<Text>) -> Result<(), AllocError>
    ensures { OnOk result (texts.new.items ≡ texts.old.items ++ of_each (seen_each parts.now)) }
{
    for part in parts {
        gather_patterns(part, texts)?;
    }
    Ok(())
}

// The same for keys and values.
#[cycle(gathering)]
fn gather_entries(entries: &[Entry<Expr>], texts: &mut Vec<Text>) -> Result<(), AllocError>
    ensures { OnOk result (texts.new.items ≡ texts.old.items ++ of_entries (seen_entries entries.now)) }
{
    for entry in entries {
        gather_patterns(&entry.key, texts)?;
        gather_patterns(&entry.value, texts)?;
    }
    Ok(())
}

// The literal text that an expression is, if it is one.
fn gather_literal(expr: &Expr, texts: &mut Vec<Text>) -> Result<(), AllocError>
    ensures { OnOk result (texts.new.items ≡ texts.old.items ++ one_or_none (seen expr.now).literal) }
{
    match &expr.form {
        Syntax::Text(text) => {
            texts.push(text.copy()?)?;
            Ok(())
        }
        Syntax::Bool(_)
        | Syntax::Int(_)
        | Syntax::Name(_)
        | Syntax::Null
        | Syntax::Uint(_)
        | Syntax::Select(_, _)
        | Syntax::Has(_, _)
        | Syntax::Unary(_, _)
        | Syntax::Index(_, _)
        | Syntax::Binary(_, _, _)
        | Syntax::And(_, _)
        | Syntax::Or(_, _)
        | Syntax::Loop(_, _, _, _)
        | Syntax::Conditional(_, _, _)
        | Syntax::MapWhere(_, _, _, _)
        | Syntax::Call(_, _)
        | Syntax::List(_)
        | Syntax::Map(_)
        | Syntax::Method(_, _, _) => Ok(()),
    }
}

// What a method is given, if it is `matches` and has one argument.
fn gather_of_method(name: &str, parts: &[Expr], texts: &mut Vec<Text>) -> Result<(), AllocError>
    ensures { OnOk result (texts.new.items ≡ texts.old.items ++ of_method name.now (seen_each parts.now)) }
{
    let [part] = parts else {
        return Ok(());
    };
    if name == "matches" {
        gather_literal(part, texts)
    } else {
        Ok(())
    }
}
