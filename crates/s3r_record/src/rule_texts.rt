//! The texts of a configuration.

ghost use Rattle.std.specs.Prelude.{◌≡◌, true, IsTrue};
ghost use Rattle.std.specs.List.{list_all};
ghost use Rattle.std.specs.Str.{is_utf8};
ghost use Rattle.s3r_record.specs.Placing.{has_texts};

use s3r_rules::Config;

fn is_text(word: &str) -> bool
    ensures holds { result ≡ true }
    ensures utf8 { is_utf8 word.now ≡ true }
{
    let _word = word;
    true
}

/// The texts of a configuration are UTF-8, as their type says: what calls this knows it of their bytes.
pub fn are_texts(config: &Config) -> bool
    ensures holds { result ≡ true }
    ensures texts { IsTrue (list_all has_texts config.now) }
{
    for rule in config.as_slice() {
        let _id = is_text(rule.id.as_str());
        let _prefix = is_text(rule.prefix.as_str());
    }
    true
}
