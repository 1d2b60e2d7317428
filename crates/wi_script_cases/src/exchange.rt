//! A script and the replies to its commands, as standard input spells them.

use crate::byte_spelling::push_spelled;
use std::alloc::{AllocError, Global};
use std::io;

/// The end of a command, and that of the reply to it.
#[derive(Clone, Copy)]
pub struct Turn {
    /// How many bytes of the script end with the command.
    pub read: usize,
    /// How many bytes of replies end with its reply.
    pub written: usize,
}

/// A script, and the replies to it.
#[derive(Drop)]
pub struct Exchange {
    pub title: String,
    pub script: Vec<u8>,
    replies: Vec<u8>,
    /// The commands, one after another.
    turns: Vec<Turn>,
}

impl Exchange {
    /// An empty script.
    pub fn new(alloc: Global, title: &str) -> Result<Exchange, AllocError> {
        Ok(Exchange {
            title: String::from_str(alloc, title)?,
            script: Vec::new(alloc),
            replies: Vec::new(alloc),
            turns: Vec::new(alloc),
        })
    }

    /// Takes a line of the script, or behind `< ` a line of the reply to the command above it.
    pub fn take(&mut self, line: &str) -> io::Result<()> {
        match line.strip_prefix("< ") {
            Some(reply) => self.take_reply(reply),
            None => push_line(line, &mut self.script),
        }
    }

    /// Takes a line of a reply. The command ends where the script ends as yet.
    fn take_reply(&mut self, reply: &str) -> io::Result<()> {
        push_line(reply, &mut self.replies)?;
        let turn = Turn {
            read: self.script.len(),
            written: self.replies.len(),
        };
        match self.turns.last_mut() {
            Some(last) if last.read == turn.read => *last = turn,
            _ => self.turns.push(turn)?,
        }
        Ok(())
    }

    /// How many bytes of replies are due to the commands that are complete in so many bytes of the script.
    fn due(&self, read: usize) -> usize {
        let mut due = 0;
        for turn in &self.turns {
            if turn.read <= read {
                due = turn.written;
            }
        }
        due
    }

    /// Whether these are all replies, and behind them these bytes.
    pub fn are_all(&self, written: &[u8], behind: &[u8]) -> bool {
        written.len() == self.replies.len().saturating_add(behind.len())
            && written.starts_with(&self.replies)
            && written.ends_with(behind)
    }

    /// Whether these are the replies to the commands that are complete in so many bytes of the script.
    pub fn are_due(&self, written: &[u8], read: usize) -> bool {
        self.replies.starts_with(written) && written.len() == self.due(read)
    }

    /// Whether these are the replies to the commands that are complete in so many bytes of the script, but for some
    /// bytes of the last reply, and the script ends there with a command.
    pub fn are_cut(&self, written: &[u8], read: usize) -> bool {
        let before = self.due(read.saturating_sub(1));
        let len = written.len();
        self.replies.starts_with(written) && before <= len && len < self.due(read)
    }
}

/// Appends the bytes that a line spells, and its end.
fn push_line(line: &str, bytes: &mut Vec<u8>) -> io::Result<()> {
    push_spelled(line, bytes)?;
    bytes.push(b'\n')?;
    Ok(())
}
