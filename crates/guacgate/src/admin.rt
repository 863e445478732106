//! What the operator asks: what runs, and that a session is ended.

use crate::asking::is_own;
use crate::noting::Notes;
use bytes::Bytes;
use gate_model::statuses::FORBIDDEN;
use gate_model::{NoMemory, Text};
use http::{HeaderValue, Request, StatusCode, header};
use http_server::{Response, Service};
use outside_tcp::Watch;
use serve_options::Names;
use session_list::{Ending, Outside, SessionList};
use std::alloc::AllocError;
use std::sync::Wait;

/// What an answer is of: JSON, the text of Prometheus, or plain text.
#[derive(Clone, Copy)]
enum Kind {
    Json,
    Metrics,
    Plain,
}

impl Kind {
    // Its media type.
    fn value(self) -> HeaderValue {
        match self {
            Kind::Json => HeaderValue::from_static("application/json"),
            Kind::Metrics => HeaderValue::from_static("text/plain; version=0.0.4"),
            Kind::Plain => HeaderValue::from_static("text/plain"),
        }
    }
}

/// What the operator is told of: the sessions, the net and the notes; and the names by which that may be asked for.
#[derive(Drop)]
pub(crate) struct Office {
    pub(crate) list: SessionList,
    pub(crate) watch: Watch,
    pub(crate) notes: Notes,
    pub(crate) names: Option<Names>,
}

impl Office {
    // The names by which it may be asked for.
    fn names(&self) -> &[Text] {
        match &self.names {
            Some(names) => names.as_slice(),
            None => &[],
        }
    }

    // What is counted beside the service.
    fn outside(&self) -> Outside {
        Outside {
            descriptors: self.watch.refused(),
            notes: self.notes.queue.lost(),
            turns: self.watch.turns(),
            nanoseconds: self.watch.nanoseconds(),
        }
    }
}

/// Answers the operator.
#[derive(Drop)]
pub(crate) struct Admin<'a, R> {
    pub(crate) rt: &'a R,
    pub(crate) office: &'a Office,
}

// A status, of what a text is, and the text.
type Answer = (StatusCode, Kind, String);

impl<'a, R: Wait + AllocGlobal> Admin<'a, R> {
    // What a request is answered.
    fn answer(&self, request: &Request<Bytes>) -> Result<Answer, NoMemory> {
        if !is_own(request, self.office.names()) {
            self.office.list.refuse(FORBIDDEN);
            return self.plain(StatusCode::FORBIDDEN, "another site's page asks\n");
        }
        let (rt, office) = (self.rt, self.office);
        match (request.method().as_str(), request.uri().path()) {
            ("GET", "/healthz") => self.plain(StatusCode::OK, "ok\n"),
            ("GET", "/sessions") => Ok((StatusCode::OK, Kind::Json, office.list.json(rt)?)),
            ("GET", "/metrics") => {
                let text = office.list.metrics(rt, &office.outside())?;
                Ok((StatusCode::OK, Kind::Metrics, text))
            }
            ("POST", "/end") => self.end(request.uri().query()),
            (_, "/healthz" | "/sessions" | "/metrics") => {
                self.plain(StatusCode::METHOD_NOT_ALLOWED, "it takes GET\n")
            }
            (_, "/end") => self.plain(StatusCode::METHOD_NOT_ALLOWED, "it takes POST\n"),
            _ => self.plain(
                StatusCode::NOT_FOUND,
                "there are /sessions, /end, /metrics and /healthz\n",
            ),
        }
    }

    // Asks that the session of a query is ended, which is so within a second.
    fn end(&self, query: Option<&str>) -> Result<Answer, NoMemory> {
        let digits = query.and_then(|it| it.strip_prefix("session="));
        match self.office.list.ask_end(self.rt, digits.unwrap_or("")) {
            Ending::Asked => self.plain(StatusCode::ACCEPTED, "it is ended within a second\n"),
            Ending::Unknown => self.plain(StatusCode::NOT_FOUND, "there is no such session\n"),
            Ending::Ambiguous => self.plain(StatusCode::CONFLICT, "there are several\n"),
        }
    }

    // A status with a plain text.
    fn plain(&self, status: StatusCode, text: &str) -> Result<Answer, NoMemory> {
        Ok((
            status,
            Kind::Plain,
            String::from_str(self.rt.alloc(), text)?,
        ))
    }
}

impl<'a, R: Wait + AllocGlobal> Service for Admin<'a, R> {
    ghost answers = { λ old request response new. Unit {0} };

    fn call(
        &mut self,
        request: &Request<Bytes>,
        response: &mut Response,
    ) -> Result<(), AllocError> {
        let Ok((status, kind, text)) = self.answer(request) else {
            return Err(AllocError);
        };
        response.status = status;
        response.add_header(header::CONTENT_TYPE, kind.value())?;
        let fresh = HeaderValue::from_static("no-store");
        response.add_header(header::CACHE_CONTROL, fresh)?;
        let as_told = HeaderValue::from_static("nosniff");
        response.add_header(header::X_CONTENT_TYPE_OPTIONS, as_told)?;
        let close = HeaderValue::from_static("close");
        response.add_header(header::CONNECTION, close)?;
        let body = Bytes::copy_from_slice(self.rt.alloc(), text.as_bytes())?;
        response.body.push(body)
    }
}
