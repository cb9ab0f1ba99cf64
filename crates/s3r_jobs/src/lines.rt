//! The lines of a running job: each is begun once, and has one result.

ghost use Rattle.std.specs.Prelude.{◌≡◌, ◌<◌, length, nat_lt, Some, None, if◌then◌else◌};
ghost use Rattle.s3r_jobs.specs.Lines.{may_start, token_of, is_kept, with_turn, with_result};
ghost use Rattle.s3r_jobs.specs.declared.token.LineTurn.TheVariants as turns;

use crate::job::Job;
use crate::result::LineResult;
use crate::stage::Running;
use crate::token::{LineToken, LineTurn};

impl Job<Running> {
    /// The next line, begun. None exactly where the job isn't Active, a line is begun, none is left, or too many
    /// failed.
    pub fn start_line(&mut self) -> Option<LineToken>
        ensures line { result ≡ (if may_start self.old then Some (token_of self.old) else None) }
        ensures job { self.new ≡ (if may_start self.old then with_turn turns.Begun self.old else self.old) }
    {
        if !self.may_start() {
            return None;
        }
        self.turn = LineTurn::Begun;
        Some(self.token())
    }

    /// The line has this one result. No other call gives one.
    pub fn finish_line(&mut self, token: LineToken, result_of: LineResult)
        requires token { token ≡ token_of self.old }
        requires begun { self.old.turn ≡ turns.Begun }
        ensures { self.new ≡ with_result result_of self.old }
    {
        let LineToken { job: _, line: _ } = token;
        self.turn = LineTurn::Free;
        if let LineResult::Failed(_) = result_of {
            self.failed += 1;
        }
        self.results.push_reserved(result_of);
    }

    /// The token waits in the job until what the line began has come to something.
    pub fn keep_line(&mut self, token: LineToken)
        requires token { token ≡ token_of self.old }
        requires begun { self.old.turn ≡ turns.Begun }
        ensures { self.new ≡ with_turn turns.Kept self.old }
    {
        let LineToken { job: _, line: _ } = token;
        self.turn = LineTurn::Kept;
    }

    /// The token that waits in the job. None exactly where none does.
    pub fn take_line(&mut self) -> Option<LineToken>
        ensures line { result ≡ (if is_kept self.old.turn then Some (token_of self.old) else None) }
        ensures job { self.new ≡ (if is_kept self.old.turn then with_turn turns.Begun self.old else self.old) }
    {
        match self.turn {
            LineTurn::Kept => {
                self.turn = LineTurn::Begun;
                Some(self.token())
            }
            LineTurn::Free | LineTurn::Begun => None,
        }
    }

    fn may_start(&self) -> bool
        ensures { result ≡ may_start self.now }
    {
        self.is_active() && self.is_free() && self.has_more() && !self.is_over()
    }

    fn has_more(&self) -> bool
        ensures { result ≡ nat_lt (length self.now.results) (length self.now.lines) }
    {
        self.results().len() < self.lines().len()
    }

    fn token(&self) -> LineToken
        ensures { result ≡ token_of self.now }
    {
        LineToken {
            job: self.id,
            line: self.next_line(),
        }
    }
}
