//! Laws of what was written.

ghost use Rattle.jxlm_encode_write.specs.Laws.{HeadersStand, TreesStand, TokensAreRead, GammaTreesStand, GammaTokensAreRead, IsWritten};

/// A header that was written stands where its bits stand.
#[tactic(auto, using(crate::proofs::HeaderLaws::headers_stand))]
pub fn headers_stand()
    ensures { HeadersStand }
{}

/// A tree that was written stands where its bits stand.
#[tactic(auto, using(crate::proofs::TreeLaws::trees_stand))]
pub fn trees_stand()
    ensures { TreesStand }
{}

/// A token that was written is read.
#[tactic(auto, using(crate::proofs::TokenLaws::tokens_are_read))]
pub fn tokens_are_read()
    ensures { TokensAreRead }
{}

/// A tree that was written with gamma codes stands where its bits stand.
#[tactic(auto, using(crate::proofs::TreeLaws::gamma_trees_stand))]
pub fn gamma_trees_stand()
    ensures { GammaTreesStand }
{}

/// A gamma code that was written is read.
#[tactic(auto, using(crate::proofs::GammaLaws::gamma_tokens_are_read))]
pub fn gamma_tokens_are_read()
    ensures { GammaTokensAreRead }
{}
