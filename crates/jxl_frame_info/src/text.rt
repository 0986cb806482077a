//! For how long pictures are shown, as lines of text.

ghost use Rattle.std.specs.Prelude.{◌≡◌, ◌++◌, IfOk, OnOk, string_bytes};
ghost use Rattle.jxl_frame_info.specs.Lines.{frame_line, frame_lines, tenths as the_tenths, timeline_lines};

use jxl_image_header::image::Animation;
use jxlm_base::grid::OutOfMemory;

// Units of time in tenths of a millisecond, rounded to nearest, half up.
#[tactic(auto, unfolding(crate::specs::Lines::tenths))]
fn tenths(animation: Animation, ticks: u32) -> u128
    ensures { result ≡ the_tenths animation ticks }
{
    let second = u128::from(animation.tps_numerator.max(1));
    let time = u128::from(ticks) * u128::from(animation.tps_denominator);
    (2 * (10000 * time) + second) / (2 * second)
}

// Adds the duration of the picture with this number.
#[tactic(auto, unfolding(crate::specs::Lines::frame_line))]
fn append_frame(
    text: &mut String,
    animation: Animation,
    number: usize,
    ticks: u32,
) -> Result<(), OutOfMemory>
    ensures { OnOk result (string_bytes text.new ≡ string_bytes text.old ++ frame_line animation number ticks) }
{
    let time = tenths(animation, ticks);
    let (whole, tenth) = (time / 10, time % 10);
    writeln!(text, "frame {number}: duration: {whole}.{tenth} ms")?;
    Ok(())
}

// Adds a line for each picture.
fn append_frames(
    text: &mut String,
    animation: Animation,
    durations: &[u32],
) -> Result<(), OutOfMemory>
    ensures { OnOk result (string_bytes text.new ≡ string_bytes text.old ++ frame_lines animation durations.now) }
{
    for (number, ticks) in durations.iter().enumerate() {
        append_frame(text, animation, number, *ticks)?;
    }
    Ok(())
}

/// Adds how many pictures an animation shows, and the duration of each; of a picture that does not change nothing.
#[tactic(auto, unfolding(crate::specs::Lines::timeline_lines))]
pub fn append_timeline(
    text: &mut String,
    animation: Option<Animation>,
    durations: &[u32],
) -> Result<(), OutOfMemory>
    ensures { OnOk result (string_bytes text.new ≡ string_bytes text.old ++ timeline_lines animation durations.now) }
{
    if let Some(animation) = animation {
        let count = durations.len();
        writeln!(text, "num_frames: {count}")?;
        append_frames(text, animation, durations)?;
    }
    Ok(())
}
