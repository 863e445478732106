//! The sessions as JSON.

use crate::list::first_of;
use crate::row::Row;
use gate_model::{NoMemory, Role};
use serde_json::{Value, json};
use std::alloc::{AllocError, Global};
use std::collections::BTreeMap;
use uuid::Uuid;

/// An array of objects (RFC 8259), one for each session, in the order of the IDs, and the end of a line.
pub(crate) fn json_of(
    alloc: Global,
    rows: &BTreeMap<Uuid, Row>,
    now: u64,
) -> Result<String, NoMemory> {
    let mut told = Vec::with_capacity(alloc, rows.len())?;
    for (id, row) in rows.iter() {
        told.push(member_of(alloc, id, row, now)?)?;
    }
    let mut text = Value::from(told).to_string(alloc)?;
    text.push('\n')?;
    Ok(text)
}

// A session: the first digits of its ID, its host and its port, its age in seconds, how many type, look on and record,
// what its link has carried, and how many bytes wait for its host.
fn member_of(alloc: Global, id: &Uuid, row: &Row, now: u64) -> Result<Value, AllocError> {
    let mut buffer = Uuid::encode_buffer();
    let session = first_of(id, &mut buffer);
    let host = row.host.as_str();
    let carried = &row.traffic.own;
    json!(in alloc; {
        "session": session,
        "host": host,
        "port": row.port,
        "age": now.saturating_sub(row.began),
        "viewers": {
            "type": row.count(Role::Control),
            "look": row.count(Role::View),
            "record": row.count(Role::Keep)
        },
        "bytes_in": carried.bytes_in(),
        "bytes_out": carried.bytes_out(),
        "frames": carried.frames(),
        "waiting": row.waiting
    })
}
