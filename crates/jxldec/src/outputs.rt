//! Where the pictures of a file are written, each to an output of its own.

ghost use Rattle.std.specs.Prelude.{◌∷◌, [], List, Option, IfErr, OnErr, OnOk};
ghost use Rattle.jxldec.specs.Contents.{IsWritable, content_text};
ghost use Rattle.jxldec.specs.Pages.{AppendsPages, Page, page_of};
ghost use Rattle.jxldec_lines.specs.Failures.{IsOfContent};

use crate::content::{Content, pass_on};
use jxl_command::output::OutputFile;
use jxldec_lines::failures::Failure;
use std::alloc::Global;

/// Outputs that have names.
pub trait Outputs {
    /// What was written, one after another: the names and the bytes, if they are known.
    ghost pages: { Self → Option (List Page) };

    /// Writes this content to the output of this name, and passes it on. Out of memory, nothing is written; after another
    /// error the output holds a beginning.
    fn write(&mut self, alloc: Global, name: &str, content: &Content) -> Result<(), Failure>
        requires { IsWritable content.now }
        ensures ok { OnOk result (AppendsPages (pages self.old) (pages self.new)
            (page_of name.now (content_text content.now) ∷ [])) }
        ensures kept { OnErr result (AppendsPages (pages self.old) (pages self.new) []) }
        ensures err { IfErr result IsOfContent };
}

/// Files, of which each is made at its first write.
#[derive(Drop)]
pub struct OutputFiles<'a> {
    pub rt: &'a HostRuntime,
}

impl Outputs for OutputFiles<'_> {
    ghost use Rattle.std.specs.Prelude.{None};

    ghost pages = { λ _. None };

    fn write(&mut self, alloc: Global, name: &str, content: &Content) -> Result<(), Failure> {
        let mut file = OutputFile::new(self.rt, name);
        pass_on(alloc, &mut file, content)
    }
}
