//! The doors of a daemon.

ghost use Rattle.std.specs.Prelude.{◌≡◌, ◌≢◌, IfErr, IfOk, OnOk, length};
ghost use Rattle.byte_io.specs.Counts.{Rose};
ghost use Rattle.munged_files.specs.Ending.{socket_failed};
ghost use Rattle.munged_files.specs.EndingTold.{ending_told};
ghost use Rattle.munged_run.specs.ServeDoors.{PostsOpened, Unopened, ending_after, has_failed};

use byte_io::{Door, FileFail, Hall};
use munged_files::Ending;
use option_file::SocketLine;
use std::alloc::Global;
use worker_pool::Post;

/// Opens a door for each of these sockets, in order, up to the first that cannot be opened. A post
/// has the caller of its socket.
pub fn open_doors<H: Hall>(
    alloc: Global,
    lines: &[SocketLine],
    hall: &mut H,
) -> Result<Vec<Post<H::Door>>, Ending<'static>>
where
    H::Door: Drop,
    <H::Door as Door>::Conn: Drop,
    ensures opened { IfOk result (λ posts. PostsOpened H.Door.door_faults lines.now
        posts.items (H.doors hall.old) (H.doors hall.new)) }
    ensures count { IfOk result (λ posts. length posts.items ≡ length lines.now) }
    ensures unopened { IfErr result (λ why. Unopened H.Door.door_faults lines.now
        (H.doors hall.old) (H.doors hall.new) (ending_told why)) }
    ensures fault { IfErr result (λ why. ending_told why ≡ socket_failed
        → Rose (H.hall_faults hall.old) (H.hall_faults hall.new)) }
    ensures sound { OnOk result (H.hall_faults hall.new ≡ H.hall_faults hall.old) }
    ensures no_fault { IfErr result (λ why. ending_told why ≢ socket_failed
        → H.hall_faults hall.new ≡ H.hall_faults hall.old) }

    ensures left { H.left hall.new ≡ H.left hall.old }
    ensures taken { H.taken hall.new ≡ H.taken hall.old }
    ensures dialled { H.dialled hall.new ≡ H.dialled hall.old }
    ensures replies { H.replies hall.new ≡ H.replies hall.old }
    ensures ends { H.ends hall.new ≡ H.ends hall.old }
    ensures read_faults { H.read_faults hall.new ≡ H.read_faults hall.old }
    ensures write_faults { H.write_faults hall.new ≡ H.write_faults hall.old }
    ensures dial_faults { H.dial_faults hall.new ≡ H.dial_faults hall.old }
{
    let mut posts = match Vec::with_capacity(alloc, lines.len()) {
        Ok(posts) => posts,
        Err(_) => return Err(Ending::NoMemory),
    };
    'lines: for line in lines {
        match hall.open_door(alloc, line.path.text()) {
            Ok(door) => posts.push_reserved(Post {
                who: line.who,
                door,
                failed: false,
            }),
            Err(why) => return Err(unopened(why)),
        }
    }
    Ok(posts)
}

/// How the program ends where a door is not opened.
fn unopened(why: FileFail) -> Ending<'static>
    ensures { ending_told result ≡ ending_after why }
{
    match why {
        FileFail::Failed => Ending::SocketFailed,
        FileFail::NoMemory => Ending::NoMemory,
    }
}

/// A door of these posts has failed.
pub fn has_failed<D: Door + Drop>(posts: &[Post<D>]) -> bool
    ensures { result ≡ has_failed posts.now }
{
    posts.iter().any(|post| post.failed)
}
