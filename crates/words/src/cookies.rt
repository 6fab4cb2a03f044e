ghost use Rattle.std.specs.Prelude.{◌≡◌};
ghost use Rattle.words.specs.Cookies.{cookie_word};

// The additional parameter of SYSTEM_OFF2 and SYSTEM_RESET2.
#[derive(Clone, Copy, Debug, PartialEq, Eq)]
pub enum Cookie {
    Cookie32(u32),
    Cookie64(u64),
}

impl From<Cookie> for u64 {
    ghost from_gives = { λ cookie word. word ≡ cookie_word cookie };

    // The cookie as a word: a 32-bit one is widened.
    fn from(cookie: Cookie) -> u64 {
        match cookie {
            Cookie::Cookie32(word) => u64::from(word),
            Cookie::Cookie64(word) => word,
        }
    }
}
