//! What a client asks: a head of 16 bytes, and behind that of a growth its records.

ghost use Rattle.std.specs.Prelude.{◌≡◌, ◌<◌, MatchResult};
ghost use Rattle.serve_core.specs.Requests.{IsRequestHead, head_of, IsNoRequest};

use crate::refusal::RequestRefusal;

/// The bytes of a request's head.
pub const HEAD_LEN: usize = 16;

/// What a client asks.
#[derive(Clone, Copy)]
pub enum ClientRequest {
    /// No more.
    End,
    /// A growth of so many records, whose bytes follow the head.
    Grow { count: u32 },
    /// To be told once all that this seat grew is settled.
    Await,
    /// How many records there are, and how many growths are settled.
    Look,
    /// The records from position `start` on, as far as they stand in one piece, and at most `count` of them.
    Read { start: u64, count: u32 },
}

/// The numbers of a request's head.
#[derive(Clone, Copy)]
pub struct Head {
    /// What is asked for: 0 the end, 1 a growth, 2 to await, 3 to look, 4 to read.
    pub kind: u32,
    /// Of how many records.
    pub count: u32,
    /// From which position on.
    pub start: u64,
}

impl Head {
    /// The numbers of these bytes, each with its lowest byte first: the kind in bytes 0 to 3, the count in 4 to 7, the start
    /// in 8 to 15.
    pub fn of(bytes: &[u8; HEAD_LEN]) -> Head
        ensures { IsRequestHead bytes.now result }
    {
        let [a, b, c, d, e, f, g, h, i, j, k, l, m, n, o, p] = *bytes;
        Head {
            kind: u32::from_le_bytes([a, b, c, d]),
            count: u32::from_le_bytes([e, f, g, h]),
            start: u64::from_le_bytes([i, j, k, l, m, n, o, p]),
        }
    }

    /// The request with this head. Refused: `UnknownKind`; `StrayNumber`, where a number that the request doesn't have isn't 0.
    pub fn request(self) -> Result<ClientRequest, RequestRefusal>
        ensures { MatchResult result (λ request. self ≡ head_of request) (IsNoRequest self) }
    {
        match (self.kind, self.count, self.start) {
            (0, 0, 0) => Ok(ClientRequest::End),
            (1, count, 0) => Ok(ClientRequest::Grow { count }),
            (2, 0, 0) => Ok(ClientRequest::Await),
            (3, 0, 0) => Ok(ClientRequest::Look),
            (4, count, start) => Ok(ClientRequest::Read { start, count }),
            (0..=4, _, _) => Err(RequestRefusal::StrayNumber),
            _ => Err(RequestRefusal::UnknownKind),
        }
    }
}
