// What holds a report to its end.
ghost use Rattle.std.specs.Prelude.{◌≡◌, true, false};

// It may be dropped only once it is spent.
pub(crate) struct Token {
    spent: bool,
}

impl Drop for Token {
    fn drop(self)
        requires { self.spent ≡ true }
    {
        let Token { spent: _ } = self;
    }
}

impl Token {
    pub(crate) fn owed() -> Token
        ensures { result.spent ≡ false }
    {
        Token { spent: false }
    }

    pub(crate) fn spend(self) {
        let mut token = self;
        token.spent = true;
    }
}
