//! Solvers where memory is refused: first all of it, then less and less of it.
use crate::compare::{holds, same};
use crate::solver::{MIRRORED, mirrored_solver};
use rq_bytes::error::Error;
use rq_bytes::operation_vector::SymbolOps;
use rq_bytes::symbol_slab::SymbolSlab;
use rq_matrix::matrix::DenseBinaryMatrix;
use rq_memory_kit::{Ending, Endings, ROUNDS, add_all, is_swept};
use rq_solver::pi_solver::IntermediateSymbolDecoder;

// How a slab with a solution is read: that takes memory too.
fn reading(slab: SymbolSlab) -> Ending {
    match slab.into_symbols() {
        Ok(symbols) => {
            let mut places = MIRRORED.iter();
            let mut is_same = symbols.len() == MIRRORED.len();
            for symbol in &symbols {
                let octet = places.next().copied().unwrap_or(0);
                is_same &= symbol.as_bytes() == [octet].as_slice();
            }
            if is_same {
                Ending::Answered
            } else {
                Ending::Other
            }
        }
        Err(_error) => Ending::Refused,
    }
}

// How the first run of a solver ended.
fn ending(answer: Result<Option<(SymbolSlab, Vec<SymbolOps>)>, Error>) -> Ending {
    match answer {
        Ok(Some((slab, _operations))) => reading(slab),
        Ok(None) => Ending::Other,
        Err(Error::OutOfMemory) => Ending::Refused,
        Err(_error) => Ending::Other,
    }
}

// Runs a solver twice: the second time it refuses, whatever the first run answered.
fn runs_once(solver: &mut IntermediateSymbolDecoder<DenseBinaryMatrix>) -> Ending {
    let ended = ending(solver.execute());
    let again = solver.execute();
    if again.err() == Some(Error::AlreadyExecuted) {
        ended
    } else {
        Ending::Other
    }
}

// Runs the next of some solvers.
fn runs_next(solvers: &mut Vec<IntermediateSymbolDecoder<DenseBinaryMatrix>>) -> Ending {
    match solvers.pop() {
        Some(mut solver) => runs_once(&mut solver),
        None => Ending::Other,
    }
}

#[test]
fn solvers_are_refused_memory_in_turn(rt: HostRuntime) -> Result<(), Error> {
    let mut solvers = Vec::new(rt.alloc());
    for _ in 0..ROUNDS + 1 {
        solvers.push(mirrored_solver(&rt, rt.alloc())?)?;
    }
    let mut endings = [Endings::new(); 1];
    let is_swept = is_swept(rt.alloc(), &mut endings, |endings| {
        add_all(endings, &[runs_next(&mut solvers)]);
    })?;
    holds!(rt; is_swept, endings.as_slice());
    same!(rt; runs_next(&mut solvers), Ending::Answered);
    Ok(())
}
