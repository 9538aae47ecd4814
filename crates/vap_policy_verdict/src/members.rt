//! Members of JSON objects.

ghost use Rattle.std.specs.Prelude.{◌≡◌, ◌++◌, OnOk};
ghost use Rattle.vap_policy_verdict.specs.Members.{text_member, number_member};

use json::Writer;
use std::alloc::AllocError;

/// Puts a member that is a text.
pub fn put_text(name: &str, text: &str, out: &mut Writer) -> Result<(), AllocError>
    ensures ok { OnOk result (out.new.tokens ≡ out.old.tokens ++ text_member name.now text.now) }
    ensures before { out.new.before ≡ out.old.before }
{
    out.key(name)?;
    out.string(text)
}

/// Puts a member that is a number.
pub fn put_number(name: &str, number: u64, out: &mut Writer) -> Result<(), AllocError>
    ensures ok { OnOk result (out.new.tokens ≡ out.old.tokens ++ number_member name.now number) }
    ensures before { out.new.before ≡ out.old.before }
{
    out.key(name)?;
    out.u64(number)
}
