//! Why bytes give no image.

ghost use Rattle.std.specs.Prelude.{◌≡◌};
ghost use Rattle.cel_code.specs.Names.{image_fault_name};
ghost use Rattle.cel_code.specs.Decoding.{fault};

use base_containers::Failed;
use thiserror::Error;

/// Why bytes spell no image: the first fault from the front.
#[derive(Clone, Copy, Debug, PartialEq, Eq, Error)]
pub enum ImageFault {
    #[error("the bytes end before the image does")]
    Truncated = 1,
    #[error("a byte that begins no instruction")]
    BadOpcode = 2,
    #[error("a number, an order or a text that the format does not have there")]
    BadTable = 3,
    #[error("bytes after the image")]
    TrailingBytes = 4,
}

impl ImageFault {
    /// The name that is printed.
    pub fn name(&self) -> &'static str
        ensures { result.now ≡ image_fault_name self.now }
    {
        match self {
            ImageFault::Truncated => "Truncated",
            ImageFault::BadOpcode => "BadOpcode",
            ImageFault::BadTable => "BadTable",
            ImageFault::TrailingBytes => "TrailingBytes",
        }
    }
}

/// Why bytes give no image.
pub type ImageError = Failed<ImageFault>;

/// A fault of what is read: all but bytes after it.
#[derive(Clone, Copy, Debug, PartialEq, Eq)]
pub enum ReadFault {
    Truncated,
    BadOpcode,
    BadTable,
}

/// Why nothing is read.
pub type ReadError = Failed<ReadFault>;

impl ReadFault {
    pub fn of_image(self) -> ImageFault
        ensures { result ≡ fault self }
    {
        match self {
            ReadFault::Truncated => ImageFault::Truncated,
            ReadFault::BadOpcode => ImageFault::BadOpcode,
            ReadFault::BadTable => ImageFault::BadTable,
        }
    }
}
