//! Instances that become imports.

use super::error::BenchError;
use super::measuring::Work;
use std::alloc::Global;
use wac_script_session::{HandedCalls, Session};
use wac_script_syntax::read_line;
use wac_types::{AggregateError, TypeAggregator};

/// Instances in two versions, which are handed to a new aggregator each time.
#[derive(Drop)]
pub(crate) struct TwoVersions {
    // Has the instances, and the calls that hand them in.
    session: Session,
    // How many imports they become.
    imports: usize,
}

// Carries out a line that builds.
fn build(alloc: Global, session: &mut Session, line: &str) -> Result<(), BenchError> {
    let Some(command) = read_line(alloc, line)? else {
        return Err(BenchError::Input);
    };
    session.run(alloc, command)?;
    Ok(())
}

// Adds n instances that export a function to a collection of this number, each identified by its
// name, which has this version, and puts the calls that hand them in under their names last.
fn push_instances(
    alloc: Global,
    session: &mut Session,
    number: u64,
    version: &str,
    n: u32,
) -> Result<(), BenchError> {
    build(alloc, session, &format!(in alloc; "coll {number}")?)?;
    for i in 0..n {
        let name = format!(in alloc; "a:b/n{i}@{version}")?;
        build(alloc, session, "func sync -")?;
        build(
            alloc,
            session,
            &format!(in alloc; "iface {name} e:f=F:fn{i}")?,
        )?;
        build(
            alloc,
            session,
            &format!(in alloc; "call {name} {number} I:i{i}")?,
        )?;
    }
    Ok(())
}

// Hands instances to a new aggregator.
fn aggregate(alloc: Global, calls: &HandedCalls<'_>) -> Result<TypeAggregator, BenchError> {
    match calls.aggregate(alloc) {
        Ok(aggregator) => Ok(aggregator),
        Err(refusal) if matches!(&refusal.error, AggregateError::Memory) => Err(BenchError::Memory),
        Err(_) => Err(BenchError::Answer),
    }
}

// How many imports there are.
fn import_count(aggregator: &TypeAggregator) -> usize {
    let mut imports = 0usize;
    for _ in aggregator.imports() {
        imports = imports.saturating_add(1);
    }
    imports
}

impl TwoVersions {
    /// n instances in each version.
    pub(crate) fn new(alloc: Global, n: u32) -> Result<TwoVersions, BenchError> {
        let mut session = Session::new(alloc);
        push_instances(alloc, &mut session, 1, "1.0.0", n)?;
        push_instances(alloc, &mut session, 2, "1.1.0", n)?;
        Ok(TwoVersions {
            session,
            imports: n as usize,
        })
    }

    // Whether the instances became as many imports as they should.
    fn look_at(&self, aggregator: &TypeAggregator) -> Result<(), BenchError> {
        if import_count(aggregator) == self.imports {
            Ok(())
        } else {
            Err(BenchError::Answer)
        }
    }
}

impl Work for TwoVersions {
    fn run(&mut self, alloc: Global, times: u64) -> Result<(), BenchError> {
        let calls = self.session.handed_calls(alloc)?;
        for _ in 0..times {
            self.look_at(&aggregate(alloc, &calls)?)?;
        }
        Ok(())
    }
}

/// Instances with one function each, which are handed to a new aggregator under one name each time.
#[derive(Drop)]
pub(crate) struct Growing {
    // Has the instances, and the calls that hand them in.
    session: Session,
    // How many functions the import exports then.
    exports: usize,
}

// Adds n instances that export a function under a name of their own, of interfaces with this
// identifier, and puts the calls that hand them in under this name last.
fn push_growing(
    alloc: Global,
    session: &mut Session,
    name: &str,
    identifier: &str,
    n: u32,
) -> Result<(), BenchError> {
    build(alloc, session, "coll 1")?;
    build(alloc, session, "func sync -")?;
    for i in 0..n {
        let interface = format!(in alloc; "iface {identifier} e:f{i}=F:fn0")?;
        build(alloc, session, &interface)?;
        build(alloc, session, &format!(in alloc; "call {name} 1 I:i{i}")?)?;
    }
    Ok(())
}

impl Growing {
    /// n instances of interfaces without identifier.
    pub(crate) fn plain(alloc: Global, n: u32) -> Result<Growing, BenchError> {
        let mut session = Session::new(alloc);
        push_growing(alloc, &mut session, "grown", "-", n)?;
        Ok(Growing {
            session,
            exports: n as usize,
        })
    }

    /// n instances of interfaces that the name identifies.
    pub(crate) fn identified(alloc: Global, n: u32) -> Result<Growing, BenchError> {
        let mut session = Session::new(alloc);
        push_growing(alloc, &mut session, "a:b/grown@1.0.0", "a:b/grown@1.0.0", n)?;
        Ok(Growing {
            session,
            exports: n as usize,
        })
    }

    // Whether the instances became one import, of an interface that exports what they should.
    fn look_at(&self, aggregator: &TypeAggregator) -> Result<(), BenchError> {
        let mut exports = 0usize;
        for interface in aggregator.types().interfaces() {
            exports = exports.max(interface.exports.len());
        }
        if import_count(aggregator) == 1 && exports == self.exports {
            Ok(())
        } else {
            Err(BenchError::Answer)
        }
    }
}

impl Work for Growing {
    fn run(&mut self, alloc: Global, times: u64) -> Result<(), BenchError> {
        let calls = self.session.handed_calls(alloc)?;
        for _ in 0..times {
            self.look_at(&aggregate(alloc, &calls)?)?;
        }
        Ok(())
    }
}
