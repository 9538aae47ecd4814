//! Where a value is in a document. A path takes no memory until it is written out for a fault.

ghost use Rattle.std.specs.Prelude.{◌≡◌, ◌++◌, IfOk, OnOk, string_bytes};
ghost use Rattle.vap_schema.specs.Paths.{path_text};

use base_containers::Text;
use std::alloc::{AllocError, Global};

#[derive(Clone, Copy)]
pub enum Path<'a> {
    Root(&'a str),
    Field(&'a Path<'a>, &'a str),
    Item(&'a Path<'a>, usize),
}

/// The path as it is written.
pub fn written(alloc: Global, path: &Path<'_>) -> Result<Text, AllocError>
    ensures { IfOk result (λ text. text ≡ path_text path.now) }
{
    let mut text = String::new(alloc);
    push_path(&mut text, path)?;
    Ok(Text::from_string(text))
}

fn push_path(text: &mut String, path: &Path<'_>) -> Result<(), AllocError>
    ensures { OnOk result (string_bytes text.new ≡ string_bytes text.old ++ path_text path.now) }
{
    match path {
        Path::Root(name) => text.push_str(name),
        Path::Field(above, name) => {
            push_path(text, above)?;
            text.push_str(".")?;
            text.push_str(name)
        }
        Path::Item(above, place) => {
            push_path(text, above)?;
            write!(text, "[{place}]")
        }
    }
}
