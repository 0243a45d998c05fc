ghost use Rattle.follow_core.specs.declared.pause.Rest.{Rest};

/// Whether a follower goes on.
#[derive(Clone, Copy, Debug, PartialEq, Eq)]
pub enum Rest {
    /// It looks again.
    GoOn,
    /// It ends here.
    End,
    /// It ends here: another file stands where the followed one stood.
    Replaced,
}

/// What a follower does between two looks.
pub trait Pause {
    /// What it may answer, from now on.
    ghost may_answer: { Self → Rest → Type 0 };

    /// Comes back when the next look is due, or none is.
    fn rest(&mut self) -> Rest
        ensures may { may_answer self.old result }
        ensures no_more { (answer : Rest) → may_answer self.new answer → may_answer self.old answer };
}
