//! What a path names, by a router of the paths' patterns.

ghost use Rattle.std.specs.Prelude.{◌≡◌, drop, map, option_map, OnOk};
ghost use Rattle.matchit.specs.Route.{parse_route};
ghost use Rattle.s3r_routes.specs.Target.{place_of};
ghost use Rattle.s3r_routes.specs.Places.{seen};
ghost use Rattle.s3r_routes.specs.Paths.{form_of, name_behind, key_behind, named_by, seen_pattern, all_patterns};
ghost use Rattle.s3r_routes.specs.Paths.{with_read, with_patterns, IsFree, AreFree, all_rows};

use crate::target::{Target, cut};
use matchit::{InsertError, Router};
use std::alloc::{AllocError, Global};

/// How many bytes of a path stand before a bucket's name: its first slash.
const BEFORE_NAME: usize = 1;

/// And before a job's id: `/v20180820/jobs/`.
const BEFORE_ID: usize = 16;

/// The form of a path.
#[derive(Clone, Copy)]
enum PathForm {
    Bucket,
    Object,
    Jobs,
    Job,
    JobPriority,
    JobStatus,
    Copy,
    JobTurn,
    Work,
    Check,
}

/// A pattern of paths and their form.
#[derive(Clone, Copy)]
struct Pattern {
    text: &'static str,
    form: PathForm,
}

/// A pattern on one line.
macro_rules! pattern {
    ($text:literal => $form:ident) => {
        Pattern {
            text: $text,
            form: PathForm::$form,
        }
    };
}

/// A parameter stands for one byte at least, so the paths of a bucket without a name have patterns of their own.
const PATTERNS: [Pattern; 13] = [
    pattern!("/{bucket}" => Bucket),
    pattern!("/{bucket}/" => Bucket),
    pattern!("//" => Bucket),
    pattern!("/{bucket}/{*key}" => Object),
    pattern!("//{*key}" => Object),
    pattern!("/v20180820/jobs" => Jobs),
    pattern!("/v20180820/jobs/{id}" => Job),
    pattern!("/v20180820/jobs/{id}/priority" => JobPriority),
    pattern!("/v20180820/jobs/{id}/status" => JobStatus),
    pattern!("/_s3r/copy" => Copy),
    pattern!("/_s3r/job" => JobTurn),
    pattern!("/_s3r/work" => Work),
    pattern!("/_s3r/check" => Check),
];

fn patterns() -> &'static [Pattern]
    ensures { map seen_pattern result.now ≡ all_patterns }
{
    &PATTERNS
}

/// The router of the request table's paths, made once.
#[derive(Drop)]
pub struct Routes {
    router: Router<PathForm>,
    ghost has_patterns: { router ≡ all_rows },
}

/// A pattern that is well formed and conflicts with none before it is taken, unless memory runs out.
fn add(router: &mut Router<PathForm>, pattern: &Pattern) -> Result<(), AllocError>
    requires { IsFree (parse_route pattern.now.text.now) router.old }
    ensures { OnOk result (router.new ≡ with_read (parse_route pattern.now.text.now) pattern.now.form router.old) }
{
    match router.insert(pattern.text, pattern.form) {
        Ok(()) => Ok(()),
        Err(InsertError::OutOfMemory) => Err(AllocError),
        Err(_) => unreachable!(),
    }
}

fn add_all(router: &mut Router<PathForm>, patterns: &[Pattern]) -> Result<(), AllocError>
    requires { AreFree (map seen_pattern patterns.now) router.old }
    ensures { OnOk result (router.new ≡ with_patterns (map seen_pattern patterns.now) router.old) }
{
    for pattern in patterns {
        add(router, pattern)?;
    }
    Ok(())
}

/// The bytes behind so many of a path.
fn behind(path: &[u8], count: usize) -> &[u8]
    ensures { result.now ≡ drop count path.now }
{
    path.get(count..).unwrap_or(&[])
}

fn named_in(path: &[u8], count: usize) -> &[u8]
    ensures { result.now ≡ name_behind count path.now }
{
    cut(behind(path, count), b'/').0
}

fn key_in(path: &[u8], count: usize) -> &[u8]
    ensures { result.now ≡ key_behind count path.now }
{
    cut(behind(path, count), b'/').1.unwrap_or(&[])
}

/// The place that a path of this form names.
fn named_by(form: PathForm, path: &[u8]) -> Target<'_>
    ensures { seen result ≡ named_by form path.now }
{
    match form {
        PathForm::Bucket => Target::Bucket(named_in(path, BEFORE_NAME)),
        PathForm::Object => Target::Object(named_in(path, BEFORE_NAME), key_in(path, BEFORE_NAME)),
        PathForm::Jobs => Target::Jobs,
        PathForm::Job => Target::Job(named_in(path, BEFORE_ID)),
        PathForm::JobPriority => Target::JobPriority(named_in(path, BEFORE_ID)),
        PathForm::JobStatus => Target::JobStatus(named_in(path, BEFORE_ID)),
        PathForm::Copy => Target::Copy,
        PathForm::JobTurn => Target::JobTurn,
        PathForm::Work => Target::Work,
        PathForm::Check => Target::Check,
    }
}

impl Routes {
    /// Err only where memory ran out.
    #[tactic(auto, unfolding(crate::specs::Paths::all_rows))]
    pub fn new(alloc: Global) -> Result<Routes, AllocError> {
        let mut router = Router::new(alloc);
        add_all(&mut router, patterns())?;
        Ok(Routes { router })
    }

    /// The form of a path that names a place.
    fn form_of(&self, path: &str) -> Option<PathForm>
        ensures { result ≡ option_map form_of (place_of path.now) }
    {
        match self.router.at(path) {
            Ok(found) => Some(*found.value),
            Err(_) => None,
        }
    }

    /// What a path names. None where it doesn't begin with a slash, or is no more than that.
    #[tactic(auto, using(crate::proofs::PlaceNames::place_found))]
    pub fn place_of<'p>(&self, path: &'p str) -> Option<Target<'p>>
        ensures { option_map seen result ≡ place_of path.now }
    {
        let form = self.form_of(path)?;
        Some(named_by(form, path.as_bytes()))
    }
}
