//! Whole images.

ghost use Rattle.std.specs.Prelude.{◌≡◌, ◌≢◌, ◌++◌, ◌↔◌, [], List, ℕ, Ok, Err, IsTrue, IfOk, IfErr, OnOk, false};
ghost use Rattle.base_containers.specs.Failures.{Answers, Gives, IfFault};
ghost use Rattle.cel_code.specs.declared.image.Image.{Image};
ghost use Rattle.cel_code.specs.declared.fault.ReadFault.TheVariants.{BadTable};
ghost use Rattle.cel_code.specs.declared.fault.ImageFault.TheVariants.{TrailingBytes};
ghost use Rattle.cel_code.specs.Code.{magic, contents, declaration, is_declaration, is_image, version, Spells};
ghost use Rattle.cel_code.specs.Reading.{made, tagged};
ghost use Rattle.cel_code.specs.CodeReading.{front_at, image_at, image_readers, image_with, byte_is, marked};
ghost use Rattle.cel_code.specs.CodeReading.{parts_at, image_from, declared_at, declared_from};
ghost use Rattle.cel_code.specs.Decoding.{decoded, IsRightFault};

use crate::fault::{ImageError, ImageFault, ReadError, ReadFault};
use crate::fields::u64_at;
use crate::image::{Image, Target};
use crate::instr::Instr;
use crate::spellable::{MOST_LEVELS, is_spellable};
use crate::spelt::{is_list, list_of, put_list};
use crate::types::type_of;
use crate::writing::put_type;
use base_containers::Items;
use cel_value::{CelType, Value};
use std::alloc::{AllocError, Global};

/// Whether an image has a spelling: exactly if some bytes spell it.
pub fn has_spelling(image: &Image) -> bool
    ensures test { result ≡ is_image image.now }
    ensures exact { IsTrue result ↔ ((bytes : List ℕ) × Spells image.now bytes) }
{
    is_list(image.slots.as_slice())
        && is_list(image.constants.as_slice())
        && is_list(image.targets.as_slice())
        && is_spellable(&image.result, MOST_LEVELS, false)
        && is_declaration(image.declared)
        && is_list(image.code.as_slice())
}

// Whether what an image declares has a spelling: each number of 64 bits has one.
fn is_declaration(declared: Option<u64>) -> bool
    ensures { result ≡ is_declaration declared }
{
    match declared {
        None => true,
        Some(number) => number <= u64::MAX,
    }
}

fn version(declared: Option<u64>) -> u8
    ensures { result ≡ version declared }
{
    match declared {
        None => 1,
        Some(_) => 2,
    }
}

/// The one spelling of an image that has one.
pub fn encode(alloc: Global, image: &Image) -> Result<Vec<u8>, AllocError>
    requires { IsTrue (is_image image.now) }
    ensures { IfOk result (λ bytes. Spells image.now bytes.items) }
{
    let mut out = Vec::new(alloc);
    out.extend_from_slice(b"VAPI")?;
    out.push(version(image.declared))?;
    put_contents(&mut out, image)?;
    Ok(out)
}

// Writes what is after the version.
fn put_contents(out: &mut Vec<u8>, image: &Image) -> Result<(), AllocError>
    ensures { OnOk result (out.new.items ≡ out.old.items ++ contents image.now) }
{
    put_list(out, image.slots.as_slice())?;
    put_list(out, image.constants.as_slice())?;
    put_list(out, image.targets.as_slice())?;
    put_type(out, &image.result)?;
    put_declaration(out, image.declared)?;
    put_list(out, image.code.as_slice())
}

// Writes the number that is declared, if one is.
fn put_declaration(out: &mut Vec<u8>, declared: Option<u64>) -> Result<(), AllocError>
    ensures { OnOk result (out.new.items ≡ out.old.items ++ declaration declared) }
{
    if let Some(number) = declared {
        out.extend_from_slice(&number.to_be_bytes())?;
    }
    Ok(())
}

/// The image that the bytes spell, or the first fault from the front.
///
/// An image is answered exactly if the bytes are its spelling, `TrailingBytes` exactly if a front of them that leaves some is
/// a spelling, and each other fault only if no front is one.
pub fn decode(alloc: Global, bytes: &[u8]) -> Result<Image, ImageError>
    ensures found { IfOk result (λ image. Spells image bytes.now) }
    ensures only { (image : Image) → Spells image bytes.now → Answers (Ok image) result }
    ensures trailing { (image : Image) (front rest : List ℕ) → Spells image front → bytes.now ≡ front ++ rest → rest ≢ []
        → Answers (Err TrailingBytes) result }
    ensures faults { IfErr result (IfFault (IsRightFault bytes.now)) }
    ensures first { Answers (decoded bytes.now) result }
{
    read_whole(alloc, bytes)
}

#[tactic(auto, unfolding(crate::specs::Decoding::decoded))]
fn read_whole(alloc: Global, bytes: &[u8]) -> Result<Image, ImageError>
    ensures { Answers (decoded bytes.now) result }
{
    match image_of(alloc, bytes) {
        Ok((image, [])) => Ok(image),
        Ok((_, [_, ..])) => Err(ImageError::Fault(ImageFault::TrailingBytes)),
        Err(ReadError::OutOfMemory) => Err(ImageError::OutOfMemory),
        Err(ReadError::Fault(fault)) => Err(ImageError::Fault(fault.of_image())),
    }
}

// The image at the front.
fn image_of(alloc: Global, bytes: &[u8]) -> Result<(Image, &[u8]), ReadError>
    ensures { Gives (λ x. (x.0, x.1.now)) result (image_at bytes.now) }
{
    let rest = behind_magic(bytes)?;
    version_of(alloc, rest)
}

// The bytes after `VAPI`.
fn behind_magic(bytes: &[u8]) -> Result<&[u8], ReadError>
    ensures { Gives (λ rest. (tt, rest.now)) result (marked magic bytes.now) }
{
    let rest = behind_byte(b'V', bytes)?;
    let rest = behind_byte(b'A', rest)?;
    let rest = behind_byte(b'P', rest)?;
    let rest = behind_byte(b'I', rest)?;
    Ok(rest)
}

fn behind_byte(wanted: u8, bytes: &[u8]) -> Result<&[u8], ReadError>
    ensures { Gives (λ rest. (tt, rest.now)) result (byte_is wanted bytes.now) }
{
    match bytes {
        [] => Err(ReadError::Fault(ReadFault::Truncated)),
        [byte, rest @ ..] => {
            if *byte == wanted {
                Ok(rest)
            } else {
                Err(ReadError::Fault(ReadFault::BadTable))
            }
        }
    }
}

// The image after `VAPI`, by its version.
#[tactic(auto, using(crate::proofs::Behind::no_version))]
fn version_of(alloc: Global, bytes: &[u8]) -> Result<(Image, &[u8]), ReadError>
    ensures { Gives (λ x. (x.0, x.1.now)) result (tagged BadTable image_readers bytes.now) }
{
    match bytes {
        [] => Err(ReadError::Fault(ReadFault::Truncated)),
        [1, rest @ ..] => plain_of(alloc, rest),
        [2, rest @ ..] => declared_of(alloc, rest),
        [_, ..] => Err(ReadError::Fault(ReadFault::BadTable)),
    }
}

/// What is in front of the code, whatever the version.
#[derive(Drop)]
pub struct Front {
    pub slots: Items<CelType>,
    pub constants: Items<Value>,
    pub targets: Items<Target>,
    pub result: CelType,
}

fn front_of(alloc: Global, bytes: &[u8]) -> Result<(Front, &[u8]), ReadError>
    ensures { Gives (λ x. (x.0, x.1.now)) result (front_at bytes.now) }
{
    let (slots, rest) = list_of(alloc, bytes)?;
    let (constants, rest) = list_of(alloc, rest)?;
    let (targets, rest) = list_of(alloc, rest)?;
    let (result, rest) = type_of(alloc, MOST_LEVELS, false, rest)?;
    let front = Front {
        slots,
        constants,
        targets,
        result,
    };
    Ok((front, rest))
}

fn image_with(front: Front, declared: Option<u64>, code: Items<Instr>) -> Image
    ensures { result ≡ image_with front declared code }
{
    let Front {
        slots,
        constants,
        targets,
        result,
    } = front;
    Image {
        slots,
        constants,
        targets,
        result,
        declared,
        code,
    }
}

// What is after version 1: nothing is declared.
fn plain_of(alloc: Global, bytes: &[u8]) -> Result<(Image, &[u8]), ReadError>
    ensures { Gives (λ x. (x.0, x.1.now)) result (made image_from parts_at bytes.now) }
{
    let (front, rest) = front_of(alloc, bytes)?;
    let (code, rest) = list_of(alloc, rest)?;
    Ok((image_with(front, None, code), rest))
}

// What is after version 2: a number is declared.
fn declared_of(alloc: Global, bytes: &[u8]) -> Result<(Image, &[u8]), ReadError>
    ensures { Gives (λ x. (x.0, x.1.now)) result (made declared_from declared_at bytes.now) }
{
    let (front, rest) = front_of(alloc, bytes)?;
    let (number, rest) = u64_at(rest)?;
    let (code, rest) = list_of(alloc, rest)?;
    Ok((image_with(front, Some(number), code), rest))
}

/// An image has at most one spelling, bytes spell at most one image, and no spelling begins another.
pub fn one_spelling()
    ensures one { (image : Image) (left right : List ℕ) → Spells image left → Spells image right → left ≡ right }
    ensures image { (left right : Image) (bytes : List ℕ) → Spells left bytes → Spells right bytes → left ≡ right }
    ensures prefix { (left right : Image) (front rest : List ℕ) → Spells left front → Spells right (front ++ rest) → rest ≡ [] }
{}
