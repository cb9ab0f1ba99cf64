//! The words of a target's query (URL Standard, section 5.1).

ghost use Rattle.std.specs.Prelude.{◌≡◌, option_map};
ghost use Rattle.std.specs.Str.{bytes_eq};
ghost use Rattle.s3r_routes.specs.Words.{word_text};
ghost use Rattle.s3r_routes.specs.Query.{text, words_in, words_of, read, value, has};
ghost use Rattle.s3r_routes.specs.Faults.{Gives, GivesBy};

use crate::fault::RouteFault;
use crate::target::{is_text, query_of};
use crate::words::Word;
use s3r_names::{Bytes, Text, form_pairs};
use std::alloc::Global;
use std::marker::Model;
use std::str;

/// The words of a query and their values, in order, seen as a list of pairs.
#[derive(Debug, Drop)]
pub struct Query {
    pairs: Vec<(Text, Text)>,
}

impl Model for Query {
    ghost use Rattle.std.specs.Prelude.{List};
    ghost use Rattle.s3r_routes.specs.Query.{Pair};

    ghost Value = { List Pair };

    ghost view = { λ query. query.pairs.items };
}

#[tactic(auto, using(crate::proofs::Texts::text_is, crate::proofs::Texts::text_is_not))]
fn text(alloc: Global, bytes: &[u8]) -> Result<Text, RouteFault>
    ensures { Gives result (text bytes.now) }
{
    match str::from_utf8(bytes) {
        Ok(text) => Ok(Text::from_str(alloc, text)?),
        Err(_) => Err(RouteFault::InvalidQuery),
    }
}

/// Each pair whose word isn't passed over.
fn words_in(alloc: Global, pairs: &[(Bytes, Bytes)]) -> Result<Vec<(Text, Text)>, RouteFault>
    ensures { GivesBy (λ words. words.items) result (words_in pairs.now) }
{
    let mut words = Vec::new(alloc);
    for pair in pairs {
        let name = text(alloc, pair.0.as_slice())?;
        let value = text(alloc, pair.1.as_slice())?;
        if !is_text(name.as_bytes(), "x-id") {
            words.push((name, value))?;
        }
    }
    Ok(words)
}

#[tactic(auto, using(crate::proofs::Texts::words_are))]
fn query_in(alloc: Global, pairs: &[(Bytes, Bytes)]) -> Result<Query, RouteFault>
    ensures { Gives result (words_of pairs.now) }
{
    Ok(Query {
        pairs: words_in(alloc, pairs)?,
    })
}

impl Query {
    /// The words of a target. InvalidQuery where a name or a value isn't UTF-8 once it is decoded.
    #[tactic(auto, unfolding(crate::specs::Query::read))]
    pub fn read(alloc: Global, target: &[u8]) -> Result<Query, RouteFault>
        ensures { Gives result (read target.now) }
    {
        let pairs = form_pairs(alloc, query_of(target))?;
        query_in(alloc, &pairs)
    }

    /// The value of the first such word.
    pub fn value(&self, word: Word) -> Option<&str>
        ensures { option_map (λ value. value.now) result ≡ value word self.now }
    {
        let found = self
            .pairs
            .iter()
            .find(|pair| is_word(pair.0.as_str(), word));
        match found {
            Some(pair) => Some(pair.1.as_str()),
            None => None,
        }
    }

    pub fn has(&self, word: Word) -> bool
        ensures { result ≡ has word self.now }
    {
        self.pairs.iter().any(|pair| is_word(pair.0.as_str(), word))
    }

    pub fn as_slice(&self) -> &[(Text, Text)]
        ensures { result.now ≡ self.now }
    {
        self.pairs.as_slice()
    }
}

pub(crate) fn is_word(name: &str, word: Word) -> bool
    ensures { result ≡ bytes_eq name.now (word_text word) }
{
    name == word.as_str()
}
