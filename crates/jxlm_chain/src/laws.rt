//! What holds of the chain of transforms.

ghost use Rattle.std.specs.Prelude.{ℕ};
ghost use Rattle.std.specs.Int.{Width};
ghost use Rattle.jxlm_chain.specs.Chain.{NoTwoImages};

/// No two images become the same coded channels, at any width of samples and any depth.
pub fn no_two_images()
    ensures { (w : Width) (depth : ℕ) → NoTwoImages w depth }
{}
