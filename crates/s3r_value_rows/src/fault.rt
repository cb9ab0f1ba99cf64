//! Why a row has no value to tell.

use s3r_json::BodyFault;
use s3r_names::NameFault;
use s3r_record::RecordFault;
use s3r_routes::RouteFault;
use s3r_rules::ConfigFault;
use s3r_versions::ListFault;
use std::alloc::{AllocError, AllocFailed, Global};

/// A fault of one of the crates.
#[derive(Clone, Copy)]
pub enum Fault {
    Name(NameFault),
    Body(BodyFault),
    Route(RouteFault),
    Config(ConfigFault),
    Record(RecordFault),
    List(ListFault),
    OutOfMemory,
}

impl Fault {
    /// The fault's name.
    pub fn text(self, alloc: Global) -> Result<String, AllocError> {
        match self {
            Fault::Name(fault) => format!(in alloc; "{fault:?}"),
            Fault::Body(fault) => format!(in alloc; "{fault:?}"),
            Fault::Route(fault) => format!(in alloc; "{fault:?}"),
            Fault::Config(fault) => config_text(alloc, fault),
            Fault::Record(fault) => format!(in alloc; "{fault:?}"),
            Fault::List(fault) => format!(in alloc; "{fault:?}"),
            Fault::OutOfMemory => String::from_str(alloc, "OutOfMemory"),
        }
    }
}

/// With the word that an answer has for what is wrong.
fn config_text(alloc: Global, fault: ConfigFault) -> Result<String, AllocError> {
    match fault {
        ConfigFault::InvalidRequest(rule, kind) => {
            let kind = kind.as_str();
            format!(in alloc; "InvalidRequest, rule {rule}: {kind}")
        }
        _ => format!(in alloc; "{fault:?}"),
    }
}

impl From<NameFault> for Fault {
    fn from(fault: NameFault) -> Fault {
        Fault::Name(fault)
    }
}

impl From<BodyFault> for Fault {
    fn from(fault: BodyFault) -> Fault {
        Fault::Body(fault)
    }
}

impl From<RouteFault> for Fault {
    fn from(fault: RouteFault) -> Fault {
        Fault::Route(fault)
    }
}

impl From<ConfigFault> for Fault {
    fn from(fault: ConfigFault) -> Fault {
        Fault::Config(fault)
    }
}

impl From<RecordFault> for Fault {
    fn from(fault: RecordFault) -> Fault {
        Fault::Record(fault)
    }
}

impl From<ListFault> for Fault {
    fn from(fault: ListFault) -> Fault {
        Fault::List(fault)
    }
}

impl From<AllocError> for Fault {
    fn from(_error: AllocError) -> Fault {
        Fault::OutOfMemory
    }
}

impl<T: Drop> From<AllocFailed<T>> for Fault {
    fn from(_error: AllocFailed<T>) -> Fault {
        Fault::OutOfMemory
    }
}
