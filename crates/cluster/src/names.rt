//! Names of files.

ghost use Rattle.std.specs.Prelude.{◌≡◌, IfOk, None, true};
ghost use Rattle.lego_base.specs.Files.{named};
ghost use Rattle.lego_msg.specs.Places.{is_issuer};
ghost use Rattle.lego_msg.specs.Plain.{Plain};
ghost use Rattle.lego_msg.specs.declared.body.Body.TheVariants.{Done, NameIs, Names};
ghost use Rattle.lego_msg.specs.declared.operation.Operation.TheVariants.{CutsName, GetsName, ListsNames, MakesName};
ghost use Rattle.lego_msg.specs.Replies.{IsReply};
ghost use Rattle.cluster.specs.Answers.{IsMade, IsName, IsNames, made_body};

use crate::Cluster;
use lego_base::{Bytes, FileNo, Halt, NameEntry, Seq};
use lego_msg::{Body, Operation, Place, Watch};

impl Cluster {
    ghost use Rattle.cluster.specs.Calls.{Calls};
    ghost use Rattle.cluster.specs.Standing.{IsAtRest, StandsFor};

    /// The file that has a name, which is made where there is none: `None` where there is no room for another file.
    pub fn make_name<W: Watch>(
        &mut self,
        by: Place,
        name: Bytes,
        watch: &mut W,
    ) -> Result<Option<FileNo>, Halt>
        requires issuer { is_issuer by ≡ true }
        requires rests { self.old.halt ≡ None → IsAtRest self.old }
        ensures call { Calls W.told W.faults watch.old watch.new self.old self.new by (MakesName name) made_body result }
        ensures file { IfOk result (λ file. (f : Plain) → StandsFor self.old f → IsReply f (MakesName name) (made_body file)) }
    {
        match self.ask(by, Operation::MakesName { name }, watch) {
            Err(halt) => return Err(halt),
            Ok(body) => return Ok(made_in(body)),
        }
    }

    /// The file that has a name.
    pub fn find_name<W: Watch>(
        &mut self,
        by: Place,
        name: Bytes,
        watch: &mut W,
    ) -> Result<Option<FileNo>, Halt>
        requires issuer { is_issuer by ≡ true }
        requires rests { self.old.halt ≡ None → IsAtRest self.old }
        ensures call { Calls W.told W.faults watch.old watch.new self.old self.new by (GetsName name) NameIs result }
        ensures file { IfOk result (λ file. (f : Plain) → StandsFor self.old f → file ≡ named f.files.names name) }
    {
        match self.ask(by, Operation::GetsName { name }, watch) {
            Err(halt) => return Err(halt),
            Ok(body) => return Ok(name_in(body)),
        }
    }

    /// A name goes.
    pub fn unlink_name<W: Watch>(
        &mut self,
        by: Place,
        name: Bytes,
        watch: &mut W,
    ) -> Result<(), Halt>
        requires issuer { is_issuer by ≡ true }
        requires rests { self.old.halt ≡ None → IsAtRest self.old }
        ensures call { Calls W.told W.faults watch.old watch.new self.old self.new by (CutsName name) (λ done. Done) result }
    {
        match self.ask(by, Operation::CutsName { name }, watch) {
            Err(halt) => return Err(halt),
            Ok(_) => return Ok(()),
        }
    }

    /// All names with their files, in the order of their bytes.
    pub fn file_names<W: Watch>(&mut self, by: Place, watch: &mut W) -> Result<Seq<NameEntry>, Halt>
        requires issuer { is_issuer by ≡ true }
        requires rests { self.old.halt ≡ None → IsAtRest self.old }
        ensures call { Calls W.told W.faults watch.old watch.new self.old self.new by ListsNames Names result }
        ensures names { IfOk result (λ names. (f : Plain) → StandsFor self.old f → names ≡ f.files.names) }
    {
        match self.ask(by, Operation::ListsNames, watch) {
            Err(halt) => return Err(halt),
            Ok(body) => return Ok(names_in(body)),
        }
    }
}

fn made_in(body: Body) -> Option<FileNo>
    requires { IsMade body }
    ensures { body ≡ made_body result }
{
    match body {
        Body::NameIs { file } => file,
        Body::Refused(_) => None,
        _ => unreachable!(),
    }
}

fn name_in(body: Body) -> Option<FileNo>
    requires { IsName body }
    ensures { body ≡ NameIs result }
{
    match body {
        Body::NameIs { file } => file,
        _ => unreachable!(),
    }
}

fn names_in(body: Body) -> Seq<NameEntry>
    requires { IsNames body }
    ensures { body ≡ Names result }
{
    match body {
        Body::Names { list } => list,
        _ => unreachable!(),
    }
}
