//! The request table: which row a path, its words and its method fit.

ghost use Rattle.std.specs.Prelude.{◌≡◌, map};
ghost use Rattle.std.specs.List.{list_all, list_any};
ghost use Rattle.s3r_routes.specs.Query.{Pair};
ghost use Rattle.s3r_routes.specs.Places.{seen};
ghost use Rattle.s3r_routes.specs.Table.{rows_at};
ghost use Rattle.s3r_routes.specs.Rows.{verb_text, words_of, seen_row, is_spelled, is_word_of, is_met, fits_row, is_row_by, route_in, route_of};

use crate::fault::RouteFault;
use crate::query::{Query, is_word};
use crate::target::Target;
use crate::words::Word;

/// A request of the table.
#[derive(Clone, Copy, Debug, PartialEq, Eq)]
pub enum Route {
    CreateBucket,
    HeadBucket,
    DeleteBucket,
    PutVersioning,
    GetVersioning,
    PutReplication,
    GetReplication,
    DeleteReplication,
    ListVersions,
    PutObject,
    GetObject,
    DeleteObject,
    DeleteVersion,
    PutTags,
    GetTags,
    DeleteTags,
    PutHold,
    GetHold,
    CreateJob,
    DescribeJob,
    SetJobPriority,
    SetJobStatus,
    Copy,
    JobTurn,
    Work,
    Check,
}

/// A method of the table.
#[derive(Clone, Copy)]
enum Verb {
    Get,
    Head,
    Put,
    Post,
    Delete,
}

/// The words that a row has beside its own obligatory one.
#[derive(Clone, Copy)]
enum Others {
    Nothing,
    Version,
    Page,
    Priority,
    Status,
    Pair,
    Region,
    Rounds,
}

/// A request of the table: by which method, with which obligatory word, and with which others.
#[derive(Clone, Copy)]
struct Row {
    verb: Verb,
    need: Option<Word>,
    others: Others,
    route: Route,
}

/// A row on one line.
macro_rules! row {
    ($verb:ident, $others:ident => $route:ident) => {
        Row {
            verb: Verb::$verb,
            need: None,
            others: Others::$others,
            route: Route::$route,
        }
    };
    ($verb:ident ? $word:ident, $others:ident => $route:ident) => {
        Row {
            verb: Verb::$verb,
            need: Some(Word::$word),
            others: Others::$others,
            route: Route::$route,
        }
    };
}

const BUCKET: [Row; 9] = [
    row!(Put, Nothing => CreateBucket),
    row!(Head, Nothing => HeadBucket),
    row!(Delete, Nothing => DeleteBucket),
    row!(Put ? Versioning, Nothing => PutVersioning),
    row!(Get ? Versioning, Nothing => GetVersioning),
    row!(Put ? Replication, Nothing => PutReplication),
    row!(Get ? Replication, Nothing => GetReplication),
    row!(Delete ? Replication, Nothing => DeleteReplication),
    row!(Get ? Versions, Page => ListVersions),
];

const OBJECT: [Row; 10] = [
    row!(Put, Nothing => PutObject),
    row!(Get, Version => GetObject),
    row!(Head, Version => GetObject),
    row!(Delete, Nothing => DeleteObject),
    row!(Delete ? VersionId, Nothing => DeleteVersion),
    row!(Put ? Tagging, Version => PutTags),
    row!(Get ? Tagging, Version => GetTags),
    row!(Delete ? Tagging, Version => DeleteTags),
    row!(Put ? LegalHold, Version => PutHold),
    row!(Get ? LegalHold, Version => GetHold),
];

const JOBS: [Row; 1] = [row!(Post, Nothing => CreateJob)];

const JOB: [Row; 1] = [row!(Get, Nothing => DescribeJob)];

const JOB_PRIORITY: [Row; 1] = [row!(Post, Priority => SetJobPriority)];

const JOB_STATUS: [Row; 1] = [row!(Post, Status => SetJobStatus)];

const COPY: [Row; 1] = [row!(Post, Pair => Copy)];

const JOB_TURN: [Row; 1] = [row!(Post, Region => JobTurn)];

const WORK: [Row; 1] = [row!(Post, Rounds => Work)];

const CHECK: [Row; 1] = [row!(Get, Nothing => Check)];

/// The rows of a path, which are the table's.
fn rows_at(place: &Target) -> &'static [Row]
    ensures { map seen_row result.now ≡ rows_at (seen place.now) }
{
    match place {
        Target::Bucket(_) => &BUCKET,
        Target::Object(_, _) => &OBJECT,
        Target::Jobs => &JOBS,
        Target::Job(_) => &JOB,
        Target::JobPriority(_) => &JOB_PRIORITY,
        Target::JobStatus(_) => &JOB_STATUS,
        Target::Copy => &COPY,
        Target::JobTurn => &JOB_TURN,
        Target::Work => &WORK,
        Target::Check => &CHECK,
    }
}

fn verb_text(verb: Verb) -> &'static str
    ensures { result.now ≡ verb_text verb }
{
    match verb {
        Verb::Get => "GET",
        Verb::Head => "HEAD",
        Verb::Put => "PUT",
        Verb::Post => "POST",
        Verb::Delete => "DELETE",
    }
}

fn words_of(others: Others) -> &'static [Word]
    ensures { result.now ≡ words_of others }
{
    match others {
        Others::Nothing => &[],
        Others::Version => &[Word::VersionId],
        Others::Page => &[
            Word::Prefix,
            Word::KeyMarker,
            Word::VersionIdMarker,
            Word::MaxKeys,
        ],
        Others::Priority => &[Word::Priority],
        Others::Status => &[Word::RequestedJobStatus],
        Others::Pair => &[Word::From, Word::To],
        Others::Region => &[Word::Region],
        Others::Rounds => &[Word::Rounds],
    }
}

fn is_one_of(words: &[Word], name: &str) -> bool
    ensures { result ≡ list_any (is_spelled name.now) words.now }
{
    words.iter().any(|word| is_word(name, *word))
}

/// Whether the row has this word.
#[tactic(auto, using(crate::proofs::TableRows::any_of_texts, crate::proofs::TableRows::or_nothing))]
fn is_word_of(row: &Row, name: &str) -> bool
    ensures { result ≡ is_word_of (seen_row row.now) name.now }
{
    let is_other = is_one_of(words_of(row.others), name);
    match row.need {
        Some(word) => is_word(name, word) || is_other,
        None => is_other,
    }
}

/// Whether the row's obligatory word is there.
#[tactic(auto, using(crate::proofs::TableRows::and_nothing))]
fn is_met(row: &Row, query: &Query) -> bool
    ensures { result ≡ is_met query.now (seen_row row.now) }
{
    match row.need {
        Some(word) => query.has(word),
        None => true,
    }
}

fn has_each_word(row: &Row, query: &Query) -> bool
    ensures { result ≡ list_all (λ (pair : Pair). is_word_of (seen_row row.now) pair.0) query.now }
{
    query
        .as_slice()
        .iter()
        .all(|pair| is_word_of(row, pair.0.as_str()))
}

fn fits(row: &Row, query: &Query) -> bool
    ensures { result ≡ fits_row query.now row.now }
{
    has_each_word(row, query) && is_met(row, query)
}

fn is_by(row: &Row, method: &str) -> bool
    ensures { result ≡ is_row_by method.now row.now }
{
    verb_text(row.verb) == method
}

fn route_by(rows: &[Row], method: &str, query: &Query) -> Option<Route>
    ensures { result ≡ route_in rows.now method.now query.now }
{
    let row = rows
        .iter()
        .find(|row| fits(row, query) && is_by(row, method))?;
    Some(row.route)
}

fn fits_any(rows: &[Row], query: &Query) -> bool
    ensures { result ≡ list_any (fits_row query.now) rows.now }
{
    rows.iter().any(|row| fits(row, query))
}

/// What is asked at a place by a method and these words. WrongMethod where only rows with another method fit (RFC 9110,
/// section 15.5.6), and UnknownQuery where no row does.
#[tactic(auto, using(crate::proofs::TableRows::route_of_rows, crate::proofs::TableRows::any_of_rows))]
pub fn route_of(place: &Target, method: &str, query: &Query) -> Result<Route, RouteFault>
    ensures { result ≡ route_of (seen place.now) method.now query.now }
{
    let rows = rows_at(place);
    if let Some(route) = route_by(rows, method, query) {
        return Ok(route);
    }
    if fits_any(rows, query) {
        Err(RouteFault::WrongMethod)
    } else {
        Err(RouteFault::UnknownQuery)
    }
}
