//! Numbers, truth values and texts, from the front of the bytes.

ghost use Rattle.std.specs.Prelude.{◌≡◌};
ghost use Rattle.base_containers.specs.Failures.{Gives};
ghost use Rattle.std.specs.Int.{w32, w64};
ghost use Rattle.cel_code.specs.Reading.{number_at, text_at, truth_at};

use crate::fault::{ReadError, ReadFault};
use base_containers::Text;
use std::alloc::Global;

pub fn u32_at(bytes: &[u8]) -> Result<(u32, &[u8]), ReadError>
    ensures { Gives (λ x. (x.0, x.1.now)) result (number_at w32 bytes.now) }
{
    if bytes.len() < 4 {
        return Err(ReadError::Fault(ReadFault::Truncated));
    }
    let (front, rest) = bytes.split_at(4);
    let number = u32::from_be_bytes([front[0], front[1], front[2], front[3]]);
    Ok((number, rest))
}

pub fn u64_at(bytes: &[u8]) -> Result<(u64, &[u8]), ReadError>
    ensures { Gives (λ x. (x.0, x.1.now)) result (number_at w64 bytes.now) }
{
    if bytes.len() < 8 {
        return Err(ReadError::Fault(ReadFault::Truncated));
    }
    let (front, rest) = bytes.split_at(8);
    let number = u64::from_be_bytes([
        front[0], front[1], front[2], front[3], front[4], front[5], front[6], front[7],
    ]);
    Ok((number, rest))
}

#[tactic(auto, unfolding(crate::specs::Reading::truth_at))]
pub fn truth_of(bytes: &[u8]) -> Result<(bool, &[u8]), ReadError>
    ensures { Gives (λ x. (x.0, x.1.now)) result (truth_at bytes.now) }
{
    match bytes {
        [] => Err(ReadError::Fault(ReadFault::Truncated)),
        [0, rest @ ..] => Ok((false, rest)),
        [1, rest @ ..] => Ok((true, rest)),
        [_, ..] => Err(ReadError::Fault(ReadFault::BadTable)),
    }
}

#[tactic(auto, using(crate::proofs::Texts::is_seen, crate::proofs::Texts::is_none), unfolding(crate::specs::Reading::text_at))]
pub fn text_of(alloc: Global, bytes: &[u8]) -> Result<(Text, &[u8]), ReadError>
    ensures { Gives (λ x. (x.0, x.1.now)) result (text_at bytes.now) }
{
    let (len, rest) = u32_at(bytes)?;
    let len = len as usize;
    if rest.len() < len {
        return Err(ReadError::Fault(ReadFault::Truncated));
    }
    let (text, rest) = rest.split_at(len);
    match std::str::from_utf8(text) {
        Ok(text) => Ok((Text::from_str(alloc, text)?, rest)),
        Err(_) => Err(ReadError::Fault(ReadFault::BadTable)),
    }
}
