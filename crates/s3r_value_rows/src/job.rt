//! Commands about jobs as text.

use crate::texts::{id_text, set_text};
use s3r_jobs::{JobSpec, ManifestSpec, Operation, ReportSpec};
use s3r_names::{Bytes, Text, VersionId};
use std::alloc::{AllocError, Global};

fn prefix_text(prefix: &Option<Text>) -> &str {
    match prefix {
        Some(prefix) => prefix.as_str(),
        None => "none",
    }
}

fn operation_text(alloc: Global, operation: &Operation) -> Result<String, AllocError> {
    match operation {
        Operation::Copy { target, prefix } => {
            let target = target.as_str();
            let prefix = prefix_text(prefix);
            format!(in alloc; "copy {target} {prefix}")
        }
        Operation::Tagging(tags) => {
            let tags = set_text(alloc, tags)?;
            format!(in alloc; "tags {tags}")
        }
        Operation::Hold(hold) => format!(in alloc; "hold {hold}"),
        Operation::Replicate => String::from_str(alloc, "replicate"),
    }
}

fn manifest_text(alloc: Global, manifest: &ManifestSpec) -> Result<String, AllocError> {
    let versions = manifest.versions;
    let bucket = manifest.bucket.as_str();
    let key = manifest.key.as_str();
    let version = id_text(alloc, manifest.version)?;
    format!(in alloc; "{versions} {bucket} {key} {version}")
}

fn report_text(alloc: Global, report: &Option<ReportSpec>) -> Result<String, AllocError> {
    match report {
        Some(report) => {
            let bucket = report.bucket.as_str();
            let prefix = prefix_text(&report.prefix);
            let all = report.all;
            format!(in alloc; "{bucket} {prefix} {all}")
        }
        None => String::from_str(alloc, "none"),
    }
}

/// A job's creation.
pub fn creation_text(
    alloc: Global,
    spec: &JobSpec,
    version: VersionId,
) -> Result<String, AllocError> {
    let token = spec.token.as_str();
    let priority = spec.priority;
    let confirm = spec.confirm;
    let operation = operation_text(alloc, &spec.operation)?;
    let manifest = manifest_text(alloc, &spec.manifest)?;
    let report = report_text(alloc, &spec.report)?;
    let version = id_text(alloc, Some(version))?;
    format!(in alloc;
        "CreateJob {token}, {priority}, {confirm}, {operation}, {manifest}, {report}, {version}"
    )
}

/// A job's end.
pub fn finish_text(alloc: Global, job: u64, body: &Option<Bytes>) -> Result<String, AllocError> {
    match body {
        Some(body) => {
            let body = body.as_slice().escape_ascii();
            format!(in alloc; "Finish {job}, {body}")
        }
        None => format!(in alloc; "Finish {job}, none"),
    }
}
