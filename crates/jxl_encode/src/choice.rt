//! The shortest of the codestreams that a picture has by different advice.

ghost use Rattle.std.specs.Prelude.{◌≡◌, ◌⊎◌, ◌≤◌, IfErr, IfOk, MatchOption, Some, length};
ghost use Rattle.std.specs.Option.{IfSome};
ghost use Rattle.jxl_image_header.specs.Images.{image_of};
ghost use Rattle.jxl_picture.specs.Pictures.{IsWhole};
ghost use Rattle.jxl_encode.specs.Codable.{IsCodable};
ghost use Rattle.jxl_encode.specs.Errors.{EncodeFails};
ghost use Rattle.jxl_encode.specs.Files.{IsCodestreamOf};
ghost use Rattle.jxl_encode.specs.Ways.{IsShortestTried};

use crate::codestream::codestream_by;
use crate::effort::Effort;
use crate::error::EncodeError;
use crate::progress::Progress;
use jxl_encode_properties::repeats::do_repeat;
use jxl_encode_ways::advice::{Advice, advices_for};
use jxl_picture::picture::Picture;
use jxlm_base::grid::OutOfMemory;
use std::alloc::Global;

/// The shorter of two codestreams, the first of which may be absent.
fn shorter(best: Option<Vec<u8>>, other: Vec<u8>) -> Vec<u8>
    ensures one { (best ≡ Some result) ⊎ (result ≡ other) }
    ensures best { IfSome best (λ v. length result.items ≤ length v.items) }
    ensures other { length result.items ≤ length other.items }
{
    match best {
        Some(bytes) => {
            if bytes.len() <= other.len() {
                bytes
            } else {
                other
            }
        }
        None => other,
    }
}

/// The shortest codestream of the picture by one of these; none, if there is none of them. `progress` hears of each.
fn shortest<P: Progress>(
    alloc: Global,
    picture: &Picture,
    advices: &[Advice],
    copies: Option<usize>,
    progress: &mut P,
) -> Result<Option<Vec<u8>>, EncodeError>
    requires whole { IsWhole (image_of picture.now.header) picture.now.channels.items }
    requires codable { IsCodable picture.now }
    ensures coded { IfOk result (λ best. IfSome best (λ v. IsCodestreamOf picture.now v.items)) }
    ensures shortest { IfOk result (λ best. MatchOption best (progress.new ≡ progress.old)
        (λ v. IsShortestTried picture.now P.way_tried_gives progress.old progress.new v.items)) }
    ensures err { IfErr result (EncodeFails picture.now) }
{
    let mut best = None;
    for advice in advices {
        let bytes = codestream_by(alloc, picture, advice, copies)?;
        progress.way_tried(advices.len(), bytes.len());
        best = Some(shorter(best, bytes));
    }
    Ok(best)
}

/// How many places of equal tokens are tried for a copy, if copies are looked for: if there is time, and the samples repeat.
fn tries_for(
    alloc: Global,
    picture: &Picture,
    effort: Effort,
) -> Result<Option<usize>, OutOfMemory> {
    let tries = match effort {
        Effort::Fast => return Ok(None),
        Effort::Usual => 2,
        Effort::Best => 4,
    };
    if do_repeat(alloc, &picture.channels)? {
        Ok(Some(tries))
    } else {
        Ok(None)
    }
}

/// A codestream of the picture. By what its samples are coded is a heuristic. `progress` hears of each way that was tried,
/// after that.
pub(crate) fn encode_codestream<P: Progress>(
    alloc: Global,
    picture: &Picture,
    effort: Effort,
    progress: &mut P,
) -> Result<Vec<u8>, EncodeError>
    requires whole { IsWhole (image_of picture.now.header) picture.now.channels.items }
    requires codable { IsCodable picture.now }
    ensures coded { IfOk result (λ v. IsCodestreamOf picture.now v.items) }
    ensures shortest { IfOk result (λ v. IsShortestTried picture.now P.way_tried_gives progress.old progress.new v.items) }
    ensures err { IfErr result (EncodeFails picture.now) }
{
    let copies = tries_for(alloc, picture, effort)?;
    let advices = advices_for(alloc, picture, effort, copies.is_some())?;
    if let Some(bytes) = shortest(alloc, picture, &advices, copies, progress)? {
        return Ok(bytes);
    }
    let plain = Advice::none(alloc);
    codestream_by(alloc, picture, &plain, copies)
}
