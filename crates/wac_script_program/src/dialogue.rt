//! A script that is carried out piece by piece, with what the last piece answered.

use super::replaying::go_on;
use super::status::FAILED;
use std::alloc::{AllocError, Global};
use wac_script_session::Session;

/// A script that goes on.
pub struct Dialogue {
    session: Session,
    // to the last piece
    answer: Vec<u8>,
}

// By hand, as of `Session`.
impl Drop for Dialogue {
    fn drop(self) {
        let Dialogue {
            session: _,
            answer: _,
        } = self;
    }
}

impl Dialogue {
    /// One in which nothing has been said.
    pub fn new(alloc: Global) -> Dialogue {
        Dialogue {
            session: Session::new(alloc),
            answer: Vec::new(alloc),
        }
    }

    /// Carries out a piece of the script, and keeps what it answers. Its lines are numbered from 1.
    ///
    /// A line that is refused ends the piece: the last line of the answer says which one, and what is
    /// wrong. `Err` is a failed allocation: no answer is kept. The lines before a line that is
    /// refused, or for which memory was wanting, have been carried out.
    pub fn feed(&mut self, alloc: Global, text: &[u8]) -> Result<(), AllocError> {
        self.answer.clear();
        let mut refusal = Vec::new(alloc);
        let status = go_on(
            alloc,
            &mut self.session,
            text,
            &mut self.answer,
            &mut refusal,
        );
        if status == FAILED || self.answer.extend_from_slice(&refusal).is_err() {
            self.answer.clear();
            return Err(AllocError);
        }
        Ok(())
    }

    /// What the last piece answered.
    pub fn answer(&self) -> &[u8] {
        &self.answer
    }
}
