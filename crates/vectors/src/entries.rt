// A bundle of the file of bundles as it is made: a session writes its entries, and another with the same key opens each.
use bundle::{Opened, Refused};
use spongewrap::Session;

// No body of the file has more bytes.
const MOST: usize = 1024;

// What opens each entry as soon as it stands: its session, and where the next one will stand.
#[derive(Clone, Copy)]
struct Reader {
    session: Session,
    place: usize,
}

impl Reader {
    // The reader after it has opened the entry at its place into an output: none where that does not then hold the body, and
    // nothing more.
    fn opened(self, bytes: &[u8], body: &[u8], out: &mut [u8]) -> Option<Reader> {
        let Opened { next, session } = bundle::open_entry(
            self.session,
            bytes,
            self.place,
            out,
        ).ok()?;
        if &out[..] != body {
            return None;
        }
        Some(Reader {
            session,
            place: next,
        })
    }
}

// A bundle as far as it has come: the session that writes it, and what reads it. There is no reader once something differed. The
// writer goes on even then: the room keeps what a bundle that differed wrote, and the next bundle is compared in the same room.
#[derive(Clone, Copy)]
pub struct Made {
    writer: Session,
    reader: Option<Reader>,
}

impl Made {
    // No entry yet, by both sessions of a key; none where the open refuses.
    pub(crate) fn fresh(key: &[u8]) -> Option<Made> {
        let session = Session::open(key).ok()?;
        Some(Made {
            writer: session,
            reader: Some(Reader {
                session,
                place: bundle::FIRST,
            }),
        })
    }

    // The bundle after the writer has given its answer. The reader follows with the entry that stands there now.
    fn followed(
        self,
        answer: Result<Session, Refused>,
        bytes: &[u8],
        body: &[u8],
        out: &mut [u8],
    ) -> Made {
        match answer {
            Ok(writer) => Made {
                writer,
                reader: self
                    .reader
                    .and_then(|reader| reader.opened(bytes, body, out)),
            },
            Err(refused) => Made {
                writer: refused.session,
                reader: None,
            },
        }
    }

    // The bundle with its label.
    pub(crate) fn started(self, label: &[u8], bytes: &mut [u8]) -> Made {
        let answer = bundle::start(self.writer, label, bytes);
        self.followed(answer, &bytes[..], b"", &mut [])
    }

    // The bundle with one more header and body; none where the body is longer than any of the file. It is written even then.
    pub(crate) fn added(self, header: &[u8], body: &[u8], bytes: &mut [u8]) -> Option<Made> {
        let answer = bundle::add(self.writer, header, body, bytes);
        let mut room = [0u8; MOST];
        let out = room.get_mut(..body.len())?;
        Some(self.followed(answer, &bytes[..], body, out))
    }

    // Whether the bundle is the one that is due, which has an entry for each pair of the writer's.
    pub(crate) fn is_due(&self, bytes: &[u8], due: &[u8]) -> bool {
        let entries = bundle::survey(due).unwrap_or(0);
        self.reader.is_some() && bytes.starts_with(due) && entries == self.writer.pairs as usize
    }
}
