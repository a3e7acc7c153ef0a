// The gateways of a script.
ghost use Rattle.std.specs.Prelude.{◌≡◌, ◌+◌, ◌<◌, ◌≤◌, [], ◌∷◌, ◌++◌, Vec, length, All, AllPairs, IfOk, vec_len, vec_capacity};
ghost use Rattle.std.specs.declared.alloc.Global.{Global};
ghost use Rattle.mkt_base.specs.declared.script.ScriptLine.{ScriptLine};
ghost use Rattle.script_file.specs.declared.script.GatewayScriptLine.{GatewayScriptLine};
ghost use Rattle.gateway.specs.Ran.{AreInStages};
ghost use Rattle.gateway_lines.specs.Lists.{AreCounts, AreLists, AreOfGateways, numbered};
ghost use Rattle.gateway_lines.specs.Making.{AreGatewaysOf};

use gateway::Gateway;
use mkt_base::{Caller, ScriptLine};
use script_file::GatewayScriptLine;
use std::alloc::{AllocError, Global};
use thiserror::Error;

/// Why no gateways were made.
#[derive(Clone, Copy, Debug, PartialEq, Eq, Error)]
pub enum GatewaysFault {
    /// There is no memory for their lines, or for the boards that these read.
    #[error("out of memory")]
    Memory,
}

/// Gateways 1 to `gateways`, in this order, each with its lines of a script in file order. The time is in proportion to the lines, and to 16
/// gateways at most.
pub fn make_gateways(
    alloc: Global,
    lines: &[GatewayScriptLine],
    gateways: u16,
) -> Result<Vec<Gateway>, GatewaysFault>
    requires few { gateways ≤ 16 }
    requires lines { All (λ (of : GatewayScriptLine). (1 ≤ of.gateway.0) × (of.gateway.0 ≤ gateways)) lines.now }
    requires stages { AllPairs (λ (a b : GatewayScriptLine). a.line.stage ≤ b.line.stage) lines.now }
    ensures { IfOk result (λ gs. AreGatewaysOf lines.now gateways gs.items) }
{
    let Ok(mut lists) = empty_lists(alloc, lines, gateways) else {
        return Err(GatewaysFault::Memory);
    };
    share_lines(lines, &mut lists);
    number_gateways(alloc, lists)
}

// A list for each gateway, with none of its lines yet and room for just as many as it has.
fn empty_lists(
    alloc: Global,
    lines: &[GatewayScriptLine],
    gateways: u16,
) -> Result<Vec<Vec<ScriptLine>>, AllocError>
    requires { AreOfGateways gateways lines.now }
    ensures { IfOk result (λ lists. AreLists lines.now [] gateways lists.items) }
{
    let counts = count_lines(alloc, lines, gateways)?;
    let mut lists = Vec::with_capacity(alloc, counts.len())?;
    for count in &counts {
        lists.push_reserved(Vec::with_capacity(alloc, *count)?);
    }
    Ok(lists)
}

// How many lines each gateway has.
fn count_lines(
    alloc: Global,
    lines: &[GatewayScriptLine],
    gateways: u16,
) -> Result<Vec<usize>, AllocError>
    requires { AreOfGateways gateways lines.now }
    ensures { IfOk result (λ counts. AreCounts lines.now gateways counts.items) }
{
    let mut counts = vec![in alloc; 0usize; usize::from(gateways)]?;
    for of in lines {
        counts[place_of(of.gateway)] += 1;
    }
    Ok(counts)
}

// The place of a gateway's count and list: the gateways are numbered from 1.
fn place_of(gateway: Caller) -> usize
    requires { 1 ≤ gateway.0 }
    ensures { gateway.0 ≡ result + 1 }
{
    usize::from(gateway.0) - 1
}

// Puts each line at the end of its gateway's list.
fn share_lines(lines: &[GatewayScriptLine], lists: &mut [Vec<ScriptLine>])
    requires lines { AreOfGateways (length lists.old) lines.now }
    requires lists { AreLists lines.now [] (length lists.old) lists.old }
    ensures { AreLists lines.now lines.now (length lists.old) lists.new }
{
    for of in lines {
        push(&mut lists[place_of(of.gateway)], &of.line);
    }
}

// Adds an item where there is room. (The prover does not follow a push of an item that holds a moment.)
fn push<T: Copy + Drop>(list: &mut Vec<T>, item: &T)
    requires { vec_len list.old < vec_capacity list.old }
    ensures items { list.new.items ≡ list.old.items ++ item.now ∷ [] }
    ensures capacity { vec_capacity list.new ≡ vec_capacity list.old }
{
    list.push_reserved(*item);
}

// The gateways of these lists, numbered from 1.
fn number_gateways(
    alloc: Global,
    lists: Vec<Vec<ScriptLine>>,
) -> Result<Vec<Gateway>, GatewaysFault>
    requires few { length lists.items ≤ 16 }
    requires stages { All (λ (list : Vec ScriptLine Global). AreInStages list.items) lists.items }
    ensures { IfOk result (λ gs. gs.items ≡ numbered 1 lists.items) }
{
    let Ok(mut made) = Vec::with_capacity(alloc, lists.len()) else {
        return Err(GatewaysFault::Memory);
    };
    for list in lists {
        let number = made.len() as u16 + 1;
        let Ok(gateway) = Gateway::make(alloc, Caller(number), list) else {
            return Err(GatewaysFault::Memory);
        };
        made.push_reserved(gateway);
    }
    Ok(made)
}
