// The commands of a script, as its lines say them.

use crate::setup::MOST_ROOM;
use crate::want::is_want;
use crate::words::Words;
use s3r_world::{Pick, Side};

/// How often something is asked, and the number of the first time. It has none where that wasn't said by `times`.
#[derive(Clone, Copy)]
pub struct Times {
    pub count: u32,
    pub first: Option<u32>,
}

/// What goes into an input.
#[derive(Clone, Copy)]
pub enum Asking<'a> {
    Request {
        method: &'a str,
        target: &'a str,
        body: &'a str,
    },
    Bytes(&'a str),
}

/// What sets a run.
#[derive(Clone, Copy)]
pub enum Setting<'a> {
    World { volumes: u8, room: u64 },
    Volume(usize, &'a str),
    Patch(usize, usize, &'a str),
    Cut(usize, usize),
    Line(&'a str),
    Ask(Times, Asking<'a>),
    Pieces(usize),
    FailNext(Side, u32),
    FailAt(u64),
    StopAfter(u64),
    Opening,
    Want(&'a str),
}

/// Which calls fail in the runs of a loop: all behind each, or each alone.
#[derive(Clone, Copy)]
pub enum Each {
    Stop,
    Failure,
}

/// What prints something of the last run.
#[derive(Clone, Copy)]
pub enum Showing<'a> {
    Output,
    Answers,
    Count(&'a str),
    Calls,
    Counts,
    Sizes,
    Volumes(Pick),
}

#[derive(Clone, Copy)]
pub enum Command<'a> {
    Set(Setting<'a>),
    /// Runs with the words of the program.
    Do,
    /// Runs with these words.
    Words(&'a str),
    /// Goes on with what is left.
    GoOn(Pick),
    Each(Each),
    Show(Showing<'a>),
}

/// Whether a line is no command: an empty one, a comment, or what is to be printed.
pub fn is_passed_over(line: &str) -> bool {
    line.is_empty() || line == "=" || line.starts_with("#") || line.starts_with("= ")
}

/// The command that a line says.
pub fn read_command(line: &str) -> Option<Command<'_>> {
    let mut words = Words::new(line);
    let command = command_of(&mut words)?;
    if words.are_over() {
        Some(command)
    } else {
        None
    }
}

fn command_of<'a>(words: &mut Words<'a>) -> Option<Command<'a>> {
    match words.word()? {
        "do" => Some(Command::Do),
        "words" => Some(Command::Words(words.text())),
        "again" => Some(Command::GoOn(Pick::AsRead)),
        "image" => Some(Command::GoOn(pick_of(words)?)),
        "each" => Some(Command::Each(each_of(words)?)),
        first => match showing_of(first, words) {
            Some(showing) => Some(Command::Show(showing)),
            None => Some(Command::Set(setting_of(first, words)?)),
        },
    }
}

fn pick_of(words: &mut Words<'_>) -> Option<Pick> {
    match words.word()? {
        "AsRead" => Some(Pick::AsRead),
        "Stable" => Some(Pick::Stable),
        "Torn" => Some(Pick::Torn(words.byte()?)),
        _ => None,
    }
}

fn each_of(words: &mut Words<'_>) -> Option<Each> {
    match words.word()? {
        "stop" => Some(Each::Stop),
        "failure" => Some(Each::Failure),
        _ => None,
    }
}

fn showing_of<'a>(first: &str, words: &mut Words<'a>) -> Option<Showing<'a>> {
    match first {
        "output" => Some(Showing::Output),
        "answers" => Some(Showing::Answers),
        "count" => Some(Showing::Count(words.some_text()?)),
        "calls" => Some(Showing::Calls),
        "counts" => Some(Showing::Counts),
        "sizes" => Some(Showing::Sizes),
        "volumes" => volumes_of(words),
        _ => None,
    }
}

fn volumes_of<'a>(words: &mut Words<'a>) -> Option<Showing<'a>> {
    if words.are_over() {
        return Some(Showing::Volumes(Pick::AsRead));
    }
    Some(Showing::Volumes(pick_of(words)?))
}

fn setting_of<'a>(first: &str, words: &mut Words<'a>) -> Option<Setting<'a>> {
    match first {
        "world" => world_of(words),
        "volume" => volume_of(words),
        "patch" => patch_of(words),
        "cut" => cut_of(words),
        "line" => Some(Setting::Line(words.some_text()?)),
        "ask" | "bytes" => once_of(first, words),
        "times" => times_of(words),
        "pieces" => pieces_of(words),
        "fail" => fail_of(words),
        "stop" => stop_of(words),
        "opening" => Some(Setting::Opening),
        "want" => want_of(words),
        _ => None,
    }
}

fn world_of<'a>(words: &mut Words<'a>) -> Option<Setting<'a>> {
    let volumes = words.byte()?;
    let room = if words.are_over() {
        MOST_ROOM
    } else {
        words.number()?
    };
    Some(Setting::World { volumes, room })
}

fn volume_of<'a>(words: &mut Words<'a>) -> Option<Setting<'a>> {
    let volume = words.number()? as usize;
    Some(Setting::Volume(volume, words.text()))
}

fn patch_of<'a>(words: &mut Words<'a>) -> Option<Setting<'a>> {
    let volume = words.number()? as usize;
    let offset = words.number()? as usize;
    Some(Setting::Patch(volume, offset, words.text()))
}

fn cut_of<'a>(words: &mut Words<'a>) -> Option<Setting<'a>> {
    let volume = words.number()? as usize;
    let length = words.number()? as usize;
    Some(Setting::Cut(volume, length))
}

fn asking_of<'a>(kind: &str, words: &mut Words<'a>) -> Option<Asking<'a>> {
    match kind {
        "ask" => {
            let method = words.word()?;
            let target = words.word()?;
            Some(Asking::Request {
                method,
                target,
                body: words.text(),
            })
        }
        "bytes" => Some(Asking::Bytes(words.text())),
        _ => None,
    }
}

fn once_of<'a>(kind: &str, words: &mut Words<'a>) -> Option<Setting<'a>> {
    let times = Times {
        count: 1,
        first: None,
    };
    Some(Setting::Ask(times, asking_of(kind, words)?))
}

fn times_of<'a>(words: &mut Words<'a>) -> Option<Setting<'a>> {
    let count = words.short_number()?;
    let mut kind = words.word()?;
    let mut first = 0;
    if kind == "from" {
        first = words.short_number()?;
        kind = words.word()?;
    }
    let times = Times {
        count,
        first: Some(first),
    };
    Some(Setting::Ask(times, asking_of(kind, words)?))
}

fn pieces_of<'a>(words: &mut Words<'a>) -> Option<Setting<'a>> {
    Some(Setting::Pieces(words.number()? as usize))
}

fn side_of(words: &mut Words<'_>) -> Option<Side> {
    match words.word()? {
        "volume" => Some(Side::Volume(words.short_number()?)),
        "input" => Some(Side::Input),
        "output" => Some(Side::Output),
        "door" => Some(Side::Door),
        _ => None,
    }
}

fn fail_of<'a>(words: &mut Words<'a>) -> Option<Setting<'a>> {
    match words.word()? {
        "at" => Some(Setting::FailAt(words.number()?)),
        "next" => {
            let side = side_of(words)?;
            Some(Setting::FailNext(side, words.short_number()?))
        }
        _ => None,
    }
}

fn stop_of<'a>(words: &mut Words<'a>) -> Option<Setting<'a>> {
    match words.word()? {
        "after" => Some(Setting::StopAfter(words.number()?)),
        _ => None,
    }
}

fn want_of<'a>(words: &mut Words<'a>) -> Option<Setting<'a>> {
    let text = words.text();
    if is_want(text) {
        Some(Setting::Want(text))
    } else {
        None
    }
}
