//! Lists with one element for each channel, changed in place by a squeeze step or a palette.

ghost use Rattle.std.specs.Prelude.{◌≡◌, ◌≤◌, ◌+◌, ◌++◌, ◌∷◌, length, take, drop, IsTrue, IsFalse, IfOk, IfErr};
ghost use Rattle.jxlm_transform.specs.ChannelSteps.{with_halves};

use super::{Palette, SqueezeParams};
use jxlm_base::grid::OutOfMemory;

/// Writes others over the elements from `begin` on.
fn overwrite<T: Copy>(list: &mut Vec<T>, begin: usize, others: &[T])
    requires { begin + length others.now ≤ length list.old.items }
    ensures { list.new.items ≡ take begin list.old.items ++ others.now ++ drop (begin + length others.now)
        list.old.items }
{
    list[begin..begin + others.len()].copy_from_slice(others);
}

impl SqueezeParams {
    /// Puts residuals right after the range (`in_place`) or at the end.
    fn put_residuals<T: Copy + Drop>(
        &self,
        list: &mut Vec<T>,
        mut residuals: Vec<T>,
    ) -> Result<(), OutOfMemory>
        requires { self.now.begin_c + self.now.num_c ≤ length list.old.items }
        ensures inside { IsTrue self.now.in_place → IfOk result
            (λ _. list.new.items ≡ take (self.now.begin_c + self.now.num_c) list.old.items ++ residuals.items ++ drop
            (self.now.begin_c + self.now.num_c) list.old.items) }
        ensures at_end { IsFalse self.now.in_place → IfOk result
            (λ _. list.new.items ≡ list.old.items ++ residuals.items) }
        ensures unchanged { IfErr result (λ _. list.new.items ≡ list.old.items) }
    {
        if self.in_place {
            let end = self.begin_c + self.num_c;
            list.splice(end..end, residuals)?;
        } else {
            list.append(&mut residuals)?;
        }
        Ok(())
    }

    /// Changes a list, which has one element for each channel, as the squeeze step changes the
    /// channels: averages replace the elements of the range, and residuals come right after them
    /// (`in_place`) or at the end of the list. Residuals at the end take time for their own number
    /// alone, others for all that comes after the range.
    ///
    /// # Errors
    ///
    /// `OutOfMemory`; the list is then as before.
    pub fn put_halves<T: Copy + Drop>(
        &self,
        list: &mut Vec<T>,
        averages: &[T],
        residuals: Vec<T>,
    ) -> Result<(), OutOfMemory>
        requires range { self.now.begin_c + self.now.num_c ≤ length list.old.items }
        requires averages { length averages.now ≡ self.now.num_c }
        ensures gives { IfOk result (λ _. list.new.items ≡ with_halves self.now averages.now residuals.items
            list.old.items) }
        ensures unchanged { IfErr result (λ _. list.new.items ≡ list.old.items) }
    {
        self.put_residuals(list, residuals)?;
        overwrite(list, self.begin_c, averages);
        Ok(())
    }
}

impl Palette {
    /// Changes a list, which has one element for each channel, as the palette changes the channels:
    /// the table's element comes first, and of the range only the first element stays, for the
    /// channel of indices.
    ///
    /// # Errors
    ///
    /// `OutOfMemory`; the list is then as before.
    pub fn put_table<T: Copy + Drop>(&self, list: &mut Vec<T>, table: T) -> Result<(), OutOfMemory>
        requires some_channels { 1 ≤ self.now.num_c }
        requires range { self.now.begin_c + self.now.num_c ≤ length list.old.items }
        ensures gives { IfOk result (λ _. list.new.items ≡ table
            ∷ (take (self.now.begin_c + 1) list.old.items ++ drop (self.now.begin_c + self.now.num_c) list.old.items)) }
        ensures unchanged { IfErr result (λ _. list.new.items ≡ list.old.items) }
    {
        let begin = self.begin_c as usize;
        let count = self.num_c as usize;
        list.insert(0, table)?;
        list.drain(begin + 2..begin + count + 1);
        Ok(())
    }
}
