// Where replies go.
ghost use Rattle.std.specs.Prelude.{◌≡◌, ℕ, Bool, true, false, List, is_ok};
ghost use Rattle.replies.specs.Replies.{reply_text};

use crate::reply::Reply;

// The output did not take a reply.
#[derive(Clone, Copy, PartialEq, Eq, Debug)]
pub struct Unwritten;

pub trait Output {
    // Holds of the output before, the bytes that it took, and the output after.
    ghost took: { Self → List ℕ → Self → Type 0 };

    // Whether it has failed.
    ghost failed: { Self → Bool };

    // Takes the text of a reply; only an output that has failed does not.
    fn tell(&mut self, reply: &Reply) -> Result<(), Unwritten>
        ensures told { is_ok result ≡ true → took self.old (reply_text reply.now) self.new }
        ensures stopped { is_ok result ≡ false → failed self.new ≡ true };
}
