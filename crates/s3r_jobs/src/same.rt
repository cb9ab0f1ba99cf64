//! When two specifications are the same.

ghost use Rattle.std.specs.Prelude.{◌≡◌};
ghost use Rattle.std.specs.Str.{bytes_eq};
ghost use Rattle.s3r_jobs.specs.Same.{same_option, same_flag, same_tags, same_version, same_operation, same_manifest, same_report, same_spec};

use crate::spec::{JobSpec, ManifestSpec, Operation, ReportSpec};
use s3r_names::{Tag, Text, VersionId};

fn same_flag(a: bool, b: bool) -> bool
    ensures { result ≡ same_flag a b }
{
    if a { b } else { !b }
}

fn same_text(a: &Option<Text>, b: &Option<Text>) -> bool
    ensures { result ≡ same_option bytes_eq a.now b.now }
{
    match (a, b) {
        (None, None) => true,
        (Some(a), Some(b)) => a == b,
        _ => false,
    }
}

fn same_tags(a: &[Tag], b: &[Tag]) -> bool
    ensures { result ≡ same_tags a.now b.now }
{
    match a {
        [] => b.is_empty(),
        [a, behind_a @ ..] => match b {
            [] => false,
            [b, behind_b @ ..] => {
                a.key == b.key && a.value == b.value && same_tags(behind_a, behind_b)
            }
        },
    }
}

fn same_version(a: &Option<VersionId>, b: &Option<VersionId>) -> bool
    ensures { result ≡ same_option same_version a.now b.now }
{
    match (a, b) {
        (None, None) => true,
        (Some(a), Some(b)) => a.region == b.region && a.index == b.index,
        _ => false,
    }
}

fn same_operation(a: &Operation, b: &Operation) -> bool
    ensures { result ≡ same_operation a.now b.now }
{
    match (a, b) {
        (
            Operation::Copy { target, prefix },
            Operation::Copy {
                target: other_target,
                prefix: other_prefix,
            },
        ) => target == other_target && same_text(prefix, other_prefix),
        (Operation::Tagging(tags), Operation::Tagging(other)) => {
            same_tags(tags.as_slice(), other.as_slice())
        }
        (Operation::Hold(hold), Operation::Hold(other)) => same_flag(*hold, *other),
        (Operation::Replicate, Operation::Replicate) => true,
        _ => false,
    }
}

fn same_manifest(a: &ManifestSpec, b: &ManifestSpec) -> bool
    ensures { result ≡ same_manifest a.now b.now }
{
    same_flag(a.versions, b.versions)
        && a.bucket == b.bucket
        && a.key == b.key
        && same_version(&a.version, &b.version)
}

fn same_report(a: &Option<ReportSpec>, b: &Option<ReportSpec>) -> bool
    ensures { result ≡ same_option same_report a.now b.now }
{
    match (a, b) {
        (None, None) => true,
        (Some(a), Some(b)) => {
            a.bucket == b.bucket && same_text(&a.prefix, &b.prefix) && same_flag(a.all, b.all)
        }
        _ => false,
    }
}

pub(crate) fn same_spec(a: &JobSpec, b: &JobSpec) -> bool
    ensures { result ≡ same_spec a.now b.now }
{
    a.token == b.token
        && a.priority == b.priority
        && same_flag(a.confirm, b.confirm)
        && same_operation(&a.operation, &b.operation)
        && same_manifest(&a.manifest, &b.manifest)
        && same_report(&a.report, &b.report)
}
