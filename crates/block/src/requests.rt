// The request list of a block: the bytes `&block[5 + 32 * p..]`.
ghost use Rattle.std.specs.Prelude.{◌≡◌, ◌+◌, ◌*◌, ◌/◌, ◌≤◌, length};
ghost use Rattle.base.specs.Search.{below};
ghost use Rattle.block.specs.Limits.{request_size};
ghost use Rattle.block.specs.Layout.{request_at, requests_in, counted_request};
ghost use Rattle.block.specs.Reading.{bad_request};
ghost use Rattle.block.specs.Steps.{first_bad, first_of_repeated_slot, NoneBad};

use crate::{REQUEST_SIZE, Request};
use setup::MAX_SLOT;

// Request i of the list.
pub fn request(list: &[u8], i: usize) -> Request
    requires { request_size * i + request_size ≤ length list.now }
    ensures { result ≡ request_at list.now i }
{
    let at = REQUEST_SIZE * i;
    Request {
        slot: list[at],
        number: u16::from_be_bytes([list[at + 1], list[at + 2]]),
    }
}

// Whether a request fails check 6: its slot is above 7, or its number is 0.
fn is_bad(q: Request) -> bool
    ensures { result ≡ bad_request q }
{
    MAX_SLOT < q.slot || q.number == 0
}

// The index of the first request of the list that fails check 6.
pub fn first_bad(list: &[u8]) -> Option<usize>
    ensures { result ≡ below (length list.now / request_size) (first_bad list.now) }
{
    (0..list.len() / REQUEST_SIZE).find(|i| is_bad(request(list, *i)))
}

// The index of the first request of the list whose slot an earlier one has, which is check 18. A mask keeps the slots met, so that one pass is enough.
pub fn first_of_repeated_slot(list: &[u8]) -> Option<usize>
    requires { NoneBad list.now }
    ensures { result ≡ below (length list.now / request_size) (first_of_repeated_slot list.now) }
{
    let mut met: u64 = 0;
    for i in 0..list.len() / REQUEST_SIZE {
        let slot = usize::from(request(list, i).slot);
        if base::in_mask(met, slot) {
            return Some(i);
        }
        met |= 1u64 << slot;
    }
    None
}

// The counted request of a slot: the number of the first request of the list that names the slot, 0 if none does.
pub fn counted_request(list: &[u8], slot: u8) -> u16
    ensures { result ≡ counted_request (requests_in list.now) slot }
{
    for i in 0..list.len() / REQUEST_SIZE {
        let q = request(list, i);
        if q.slot == slot {
            return q.number;
        }
    }
    0
}
