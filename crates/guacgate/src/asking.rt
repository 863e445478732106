//! Who may ask what runs.

use bytes::Bytes;
use fetch_site::is_foreign;
use gate_model::Text;
use http::{Request, header};
use page_files::is_known;

/// Whether a request comes by an address, by `localhost` or by one of the names, so that a name that was bound anew to
/// this machine gets nobody further, and no page of another site makes it: a browser says so in `Sec-Fetch-Site`, or in
/// `Origin` (RFC 6454, section 7).
pub(crate) fn is_own(request: &Request<Bytes>, names: &[Text]) -> bool {
    let host = match request.headers().get(header::HOST) {
        Some(host) => host.as_bytes(),
        None => b"",
    };
    for (name, value) in request.headers().iter() {
        let (name, value) = (name.as_str().as_bytes(), value.as_bytes());
        if is_foreign(name, value)
            || name == b"host".as_slice() && !is_known(value, names)
            || name == b"origin".as_slice() && value.strip_prefix(b"http://") != Some(host)
        {
            return false;
        }
    }
    true
}
