//! The contexts of the bytes of an encoded profile, and the clusters of contexts.

ghost use Rattle.std.specs.Prelude.{◌≡◌, ◌≤◌, [], length, take, IfOk};
ghost use Rattle.jxl_codestream.specs.Profiles.{context_of as the_context_of};
ghost use Rattle.jxl_profile_write.specs.Inner.Tokens.{cluster_count, cluster_in, clusters_in, onto, tokens_after};

use jxl_codestream::profile::context_of;
use jxlm_bit_writer::token::Token;
use std::alloc::{AllocError, Global};

/// The number of contexts.
const CONTEXTS: u8 = 41;

/// The context of byte i, by the two bytes before it.
fn context_at(bytes: &[u8], i: usize) -> u8
    requires { i ≤ length bytes.now }
    ensures { result ≡ the_context_of (onto (take i bytes.now) []) }
{
    if i <= 128 {
        return 0;
    }
    context_of(i as u64, u32::from(bytes[i - 1]), u32::from(bytes[i - 2])) as u8
}

/// The cluster of a context: where they are separate, one for the header, and one for each kind of the last byte.
fn cluster_of(separate: bool, context: u8) -> u8
    ensures { result ≡ cluster_in separate context }
{
    if separate && context > 0 {
        1 + (context - 1) % 8
    } else {
        0
    }
}

/// The number of clusters.
pub fn count_of(separate: bool) -> u32
    ensures { result ≡ cluster_count separate }
{
    if separate { 9 } else { 1 }
}

/// The cluster of each context.
pub fn clusters(alloc: Global, separate: bool) -> Result<Vec<u8>, AllocError>
    ensures { IfOk result (λ v. v.items ≡ clusters_in separate) }
{
    let mut clusters = Vec::new(alloc);
    for context in 0..CONTEXTS {
        clusters.push(cluster_of(separate, context))?;
    }
    Ok(clusters)
}

/// The bytes as tokens, each in the cluster of its context.
pub fn tokens(alloc: Global, bytes: &[u8], separate: bool) -> Result<Vec<Token>, AllocError>
    ensures { IfOk result (λ v. v.items ≡ tokens_after separate [] bytes.now) }
{
    let mut tokens = Vec::new(alloc);
    for i in 0..bytes.len() {
        let context = context_at(bytes, i);
        tokens.push(Token {
            cluster: cluster_of(separate, context),
            value: u32::from(bytes[i]),
        })?;
    }
    Ok(tokens)
}
