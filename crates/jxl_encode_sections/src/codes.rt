//! One code for the tokens of all parts.

ghost use Rattle.std.specs.Prelude.{◌≡◌, ◌<◌, ◌≤◌, ◌++◌, Ok, IfOk};
ghost use Rattle.std.specs.List.{All};
ghost use Rattle.jxl_coding.specs.Clusters.{count_of};
ghost use Rattle.jxl_coding_stream_write.specs.Heads.{IsHead};
ghost use Rattle.jxl_coding_stream_write.specs.Tokens.{HasSlot};
ghost use Rattle.jxl_encode_sections.specs.Inner.Parts.{all_tokens};

use crate::parts::PartTokens;
use jxl_coding_build::streams::writer_for;
use jxl_coding_stream_write::stream::StreamWriter;
use jxlm_base::grid::OutOfMemory;
use jxlm_bit_writer::token::Token;
use std::alloc::Global;

/// The number of tokens below which a code can be made of them.
pub(crate) const TOKEN_LIMIT: usize = 1 << 31;

/// These tokens, and all tokens of these parts, one part after another.
pub(crate) fn joined(
    alloc: Global,
    first: &[Token],
    parts: &[PartTokens],
) -> Result<Vec<Token>, OutOfMemory>
    ensures { IfOk result (λ v. v.items ≡ first.now ++ all_tokens parts.now) }
{
    let mut tokens = Vec::new(alloc);
    tokens.extend_from_slice(first)?;
    for part in parts {
        tokens.extend_from_slice(&part.tokens)?;
    }
    Ok(tokens)
}

/// The same clusters.
fn copied(alloc: Global, clusters: &[u8]) -> Result<Vec<u8>, OutOfMemory>
    ensures { IfOk result (λ v. v.items ≡ clusters.now) }
{
    let mut copy = Vec::new(alloc);
    copy.extend_from_slice(clusters)?;
    Ok(copy)
}

/// One code for these tokens and those of all parts, in these clusters. It keeps all tokens a second time while it is
/// made.
///
/// # Errors
///
/// `OutOfMemory`, also where there are 2^31 tokens and more.
pub(crate) fn codes_for(
    alloc: Global,
    clusters: &[u8],
    many: u32,
    first: &[Token],
    parts: &[PartTokens],
) -> Result<StreamWriter, OutOfMemory>
    requires few { many ≤ 256 }
    requires used { count_of clusters.now ≡ Ok many }
    requires first { All (λ t. t.cluster < many) first.now }
    requires tokens { All (λ p. All (λ t. t.cluster < many) p.tokens.items) parts.now }
    ensures clusters { IfOk result (λ w. w.clusters.items ≡ clusters.now) }
    ensures head { IfOk result (λ w. IsHead w) }
    ensures first { IfOk result (λ w. All (HasSlot w.codes.items) first.now) }
    ensures slots { IfOk result (λ w. All (λ p. All (HasSlot w.codes.items) p.tokens.items) parts.now) }
{
    let tokens = joined(alloc, first, parts)?;
    if tokens.len() >= TOKEN_LIMIT {
        return Err(OutOfMemory);
    }
    let own = copied(alloc, clusters)?;
    let codes = writer_for(alloc, own, many, &tokens)?;
    Ok(codes)
}
