//! What was built for each pattern, which is kept.
ghost use Rattle.std.specs.Prelude.{◌≡◌, List, ℕ, IfOk, IfErr, IsSome, Some, None, map, slice_get, option_map};
ghost use Rattle.std.specs.BTreeMap.{get_by_text};
ghost use Rattle.base_containers.specs.Failures.{IfFault};
ghost use Rattle.cel_operators.specs.PatternMeaning.{tree_of, is_found};
ghost use Rattle.cel_operators.specs.Building.{IsReason};
ghost use Rattle.cel_operators.specs.BuiltText.{built_text};

use crate::Unbuilt;
use crate::built::Built;
use std::alloc::Global;
use std::collections::BTreeMap;

/// What finds patterns in texts. It keeps what it built for each pattern that it met, and no answer depends on that.
pub struct Matchers {
    places: BTreeMap<String, usize>,
    kept: Vec<Built>,
    ghost named: { (text : List ℕ) → option_map (slice_get (map built_text kept.items)) (get_by_text places text)
        ≡ option_map (λ _. Some text) (get_by_text places text) },
}

impl Drop for Matchers {
    fn drop(self) {
        let Matchers {
            places: _places,
            kept: _kept,
        } = self;
    }
}

impl Matchers {
    ghost use Rattle.cel_operators.specs.KeptPatterns.{texts_of};

    /// It takes no memory until a pattern is met.
    pub fn new(alloc: Global) -> Matchers {
        Matchers {
            places: BTreeMap::new(alloc),
            kept: Vec::new(alloc),
        }
    }

    /// Whether a pattern is found anywhere in a text. It is built at its first use.
    pub fn finds(&mut self, alloc: Global, pattern: &str, text: &str) -> Result<bool, Unbuilt>
        ensures found { IfOk result (λ found. found ≡ is_found pattern.now text.now) }
        ensures is_pattern { IfOk result (λ _. IsSome (tree_of pattern.now)) }
        ensures refused { IfErr result (IfFault (IsReason pattern.now)) }
    {
        let place = self.place_of(alloc, pattern)?;
        Ok(self.kept[place].finds(alloc, text)?)
    }

    /// The place of the pattern among what is kept.
    fn place_of(&mut self, alloc: Global, pattern: &str) -> Result<usize, Unbuilt>
        ensures place { IfOk result (λ place. slice_get (texts_of self.new) place ≡ Some pattern.now) }
        ensures refused { IfErr result (IfFault (IsReason pattern.now)) }
    {
        if let Some(place) = self.places.get(pattern) {
            return Ok(*place);
        }
        self.build(alloc, pattern)
    }

    /// Builds a pattern that is new. Not inlined, as it is rare and has large locals.
    #[cold]
    #[inline(never)]
    fn build(&mut self, alloc: Global, pattern: &str) -> Result<usize, Unbuilt>
        ensures place { IfOk result (λ place. slice_get (texts_of self.new) place ≡ Some pattern.now) }
        ensures refused { IfErr result (IfFault (IsReason pattern.now)) }
    {
        let key = String::from_str(alloc, pattern)?;
        let place = self.kept.len();
        self.kept.reserve(1)?;
        let built = Built::new(alloc, pattern)?;
        self.places.insert(key, place)?;
        self.kept.push_reserved(built);
        Ok(place)
    }
}
