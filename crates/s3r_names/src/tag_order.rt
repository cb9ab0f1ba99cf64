//! Tags in the order of their keys.

ghost use Rattle.std.specs.Prelude.{◌≡◌, ◌<◌, ◌≤◌, length};
ghost use Rattle.s3r_names.specs.Tags.{place_of, first_place, first_moved, in_key_order};

use crate::Tag;
use crate::tag_rule::is_key_below;

/// How many tags at the front have a key below this one.
fn place_of(tags: &[Tag], key: &[u8]) -> usize
    ensures place { result ≡ place_of key.now tags.now }
    ensures within { result ≤ length tags.now }
{
    tags.iter()
        .take_while(|tag| is_key_below(tag.key.as_bytes(), key))
        .count()
}

/// How many of the tags behind the first are below it.
fn first_place(tags: &[Tag]) -> usize
    requires { 0 < length tags.now }
    ensures place { result ≡ first_place tags.now }
    ensures within { result < length tags.now }
{
    match tags {
        [first, rest @ ..] => place_of(rest, first.key.as_bytes()),
        [] => 0,
    }
}

/// Moves the first tag behind those that are below it, where the others are in order.
fn move_first(tags: &mut [Tag])
    requires { 0 < length tags.old }
    ensures { tags.new ≡ first_moved tags.old }
{
    let place = first_place(tags);
    tags[..=place].rotate_left(1);
}

/// Puts the tags in rising order of their keys.
pub(crate) fn put_in_order(tags: &mut [Tag])
    ensures { tags.new ≡ in_key_order tags.old }
{
    for start in (0..tags.len()).rev() {
        move_first(&mut tags[start..]);
    }
}
