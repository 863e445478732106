//! The page that the service hands out, where one is wanted.

use crate::notes::note_unknown;
use gate_model::statuses::FORBIDDEN;
use gate_outside::Sink;
use http_front::{Refusal, Response, write_response};
use log::Log;
use page_files::{Judged, PageFile, answer, judge};
use serve_options::Names;
use session_list::SessionList;
use std::alloc::Global;

/// The files of the page, and the names by which it may be asked for.
#[derive(Drop)]
pub(crate) struct Page {
    pub(crate) files: &'static [PageFile],
    pub(crate) names: Names,
}

impl Page {
    /// Answers a request that the page is for, by the bytes that were read ahead: one for a file has the file, and one by
    /// a host that isn't known is refused and counted. Whether it was such a request.
    pub(crate) fn answers<K: Sink, L: Log>(
        &self,
        alloc: Global,
        front: &[u8],
        sink: &mut K,
        log: &L,
        list: &SessionList,
    ) -> bool {
        match judge(front, self.files, self.names.as_slice()) {
            Judged::File(file) => {
                let _ = answer(alloc, sink, file);
                true
            }
            Judged::Refused => {
                note_unknown(log);
                list.refuse(FORBIDDEN);
                refuse(alloc, sink);
                true
            }
            Judged::Other => false,
        }
    }
}

/// Refuses a request with 403, before anything is done for it.
pub(crate) fn refuse<K: Sink>(alloc: Global, sink: &mut K) {
    let _ = write_response(alloc, sink, &Response::of(alloc, Err(Refusal::Forbidden)));
}
