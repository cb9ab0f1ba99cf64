//! The first byte of a command's spelling.

pub(crate) const CREATE_BUCKET: u8 = 1;

pub(crate) const DELETE_BUCKET: u8 = 2;

pub(crate) const SET_VERSIONING: u8 = 3;

pub(crate) const SET_REPLICATION: u8 = 4;

pub(crate) const DROP_REPLICATION: u8 = 5;

pub(crate) const PUT: u8 = 6;

pub(crate) const MARKER: u8 = 7;

pub(crate) const REMOVE: u8 = 8;

pub(crate) const SET_TAGS: u8 = 9;

pub(crate) const SET_HOLD: u8 = 10;

pub(crate) const RECEIVE: u8 = 11;

pub(crate) const SETTLE: u8 = 12;

pub(crate) const ATTEMPT: u8 = 13;

pub(crate) const CREATE_JOB: u8 = 14;

pub(crate) const MOVE_JOB: u8 = 15;

pub(crate) const SET_PRIORITY: u8 = 16;

pub(crate) const PREPARE: u8 = 17;

pub(crate) const LINE: u8 = 18;

pub(crate) const FINISH: u8 = 19;
