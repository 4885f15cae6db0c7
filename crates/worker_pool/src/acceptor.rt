//! An acceptor: it puts what a door gives into the queue.

ghost use Rattle.worker_pool.specs.Accepting.{HasAccepted, door_sight};
ghost use Rattle.worker_pool.specs.Holders.{IsNewLedger};

use crate::holders::Holder;
use crate::moves::put;
use crate::post::{Post, Queued, Waiting};
use crate::queue::Queue;
use crate::signal::Signal;
use byte_io::{Door, Next};
use std::sync::Wait;

/// Puts the connections that the door gives into the queue, with the caller of its post, until the
/// door is over or has failed. It sleeps while the queue is full.
pub(crate) fn accept_all<D: Door + Drop, W: Wait>(
    rt: &W,
    queue: &Queue<Queued<D::Conn>>,
    signal: &Signal,
    holder: &mut Holder<Queued<D::Conn>, Post<D>>,
)
where
    D::Conn: Drop,
    requires { IsNewLedger queue.now holder.old }
    ensures { HasAccepted (door_sight D.coming D.door_faults D.is_over) queue.now
        holder.old holder.new }
{
    let mut turn = 0u64;
    holder.state.failed = false;
    for _ in rt.forever() {
        let conn = match holder.state.door.accept() {
            Next::Conn(conn) => conn,
            Next::Over => break,
            Next::Failed => {
                holder.state.failed = true;
                break;
            }
        };
        let waiting = Waiting {
            post: holder.number,
            turn,
            conn,
        };
        let who = holder.state.who;
        put(rt, queue, signal, &mut holder.pass, Queued { who, waiting });
        turn = turn.saturating_add(1);
    }
    signal.close(rt);
}
