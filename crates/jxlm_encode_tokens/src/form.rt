//! What is kept of the tokens of samples: their values, or their clusters too.

ghost use Rattle.std.specs.Prelude.{◌≡◌};
ghost use Rattle.jxlm_encode_tokens.specs.Inner.Forms.{Form, IsKept};

use jxlm_bit_writer::token::Token;

/// What is kept of a token.
pub(crate) trait TokenForm: Copy {
    // the value of what is kept, and its cluster, if it has one
    ghost form: { Form Self };

    /// What is kept of the token of this cluster and value.
    fn new(cluster: u8, value: u32) -> Self
        ensures { IsKept form cluster value result };

    /// Whether the cluster is kept.
    fn has_cluster() -> bool
        ensures { result ≡ form.clustered };
}

impl TokenForm for u32 {
    ghost use Rattle.jxlm_encode_tokens.specs.Inner.Forms.{value_form};

    ghost form = { value_form };

    #[inline(always)]
    fn new(_cluster: u8, value: u32) -> u32 {
        value
    }

    #[inline(always)]
    fn has_cluster() -> bool {
        false
    }
}

impl TokenForm for Token {
    ghost use Rattle.jxlm_encode_tokens.specs.Inner.Forms.{token_form};

    ghost form = { token_form };

    #[inline(always)]
    fn new(cluster: u8, value: u32) -> Token {
        Token { cluster, value }
    }

    #[inline(always)]
    fn has_cluster() -> bool {
        true
    }
}
