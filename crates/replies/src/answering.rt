// From a request to its reply.
ghost use Rattle.std.specs.Prelude.{◌≡◌, IfOk};
ghost use Rattle.replies.specs.Replies.{meaning_of, product_reply, replied, reply_to};
ghost use Rattle.requests.specs.Asked.{asked_by, matrix_of};

use crate::multiply::multiply;
use crate::reply::Reply;
use requests::request::{Request, RingName, Table};
use rings::octets::Octets;
use rings::octets::by_shifts::ByShifts;
use rings::octets::by_table::ByTable;
use rings::residues::Residues;
use rings::words::Words;
use std::alloc::{AllocError, Global};

// The reply to a request; an error only where there is no memory for it.
pub fn answer(heap: Global, request: Request) -> Result<Reply, AllocError>
    ensures { IfOk result (λ reply. replied reply ≡ reply_to (asked_by request)) }
{
    let Request::Product { ring, left, right } = request;
    multiply_over(heap, ring, left, right)
}

// The product over the ring of a name.
fn multiply_over(
    heap: Global,
    ring: RingName,
    left: Table,
    right: Table,
) -> Result<Reply, AllocError>
    ensures { IfOk result (λ reply. replied reply ≡ product_reply (meaning_of ring) (matrix_of left) (matrix_of right)) }
{
    match ring {
        RingName::Words => multiply(heap, &Words, left, right),
        RingName::Residues => multiply(heap, &Residues, left, right),
        RingName::Octets => multiply(heap, &Octets(ByTable), left, right),
        RingName::OctetsByShifts => multiply(heap, &Octets(ByShifts), left, right),
    }
}
