//! The written scripts. All have four nodes and one item, and node 3 is faulty.
use super::stage::Script;
use law::{Call, SetupCall};
use reading::bearing::Bearing;
use std::alloc::{AllocError, Global};

// The script in which nodes 0, 1 and 2 begin with these bearings.
fn begin(heap: Global, bearings: [u16; 3]) -> Result<Script<Bearing>, AllocError> {
    let mut script = Script::new(heap, 4, 1);
    script.first(SetupCall::MarkFaulty { node: 3 })?;
    for (node, hundredths) in bearings.into_iter().enumerate() {
        script.first(SetupCall::Propose {
            node,
            item: 0,
            cell: Some(Bearing::new(hundredths)),
        })?;
    }
    Ok(script)
}

impl Script<Bearing> {
    // Node 3 sends a bearing.
    fn send_value(&mut self, receiver: usize, hundredths: u16) -> Result<(), AllocError> {
        self.then(Call::SendValue {
            sender: 3,
            receiver,
            item: 0,
            cell: Some(Bearing::new(hundredths)),
        })
    }

    // Node 3 sends a bit.
    fn send_bit(&mut self, receiver: usize, bit: u8) -> Result<(), AllocError> {
        self.then(Call::SendBit {
            sender: 3,
            receiver,
            item: 0,
            bit,
        })
    }

    // Closes the step, and asks every honest node for its decision.
    fn close(&mut self) -> Result<(), AllocError> {
        self.then(Call::Close)?;
        self.ask(3)
    }
}

// Node 3 sends 500 to node 0 and then 1000. Nodes 0, 1 and 2 agree on 1000 at step 3, so that step 4 is over.
pub fn repeated(heap: Global) -> Result<Script<Bearing>, AllocError> {
    let mut script = begin(heap, [1000, 1000, 37000])?;
    script.send_value(0, 500)?;
    script.send_value(0, 1000)?;
    for _step in 1..5 {
        script.close()?;
    }
    script.then(Call::Decision { node: 3, item: 0 })?;
    Ok(script)
}

// Steps 1 and 2, after which the bits of nodes 0, 1 and 2 are 0, 1 and 1.
fn split(heap: Global) -> Result<Script<Bearing>, AllocError> {
    let mut script = begin(heap, [1000, 1000, 500])?;
    script.send_value(0, 1000)?;
    script.send_value(1, 1000)?;
    script.close()?;
    script.send_value(0, 1000)?;
    script.close()?;
    Ok(script)
}

// Node 3 keeps the bits apart past the toss of round 1, and then is silent.
pub fn divided(heap: Global) -> Result<Script<Bearing>, AllocError> {
    let mut script = split(heap)?;
    for bit in [1, 0, 1] {
        script.send_bit(0, bit)?;
        script.close()?;
    }
    for _step in 6..10 {
        script.close()?;
    }
    Ok(script)
}

// Node 3 keeps the bits apart for all 100 rounds under tosses of 1. The close of step 303 is refused.
pub fn endless(heap: Global) -> Result<Script<Bearing>, AllocError> {
    let mut script = split(heap)?;
    for _round in 1..101 {
        script.send_bit(0, 1)?;
        script.close()?;
        script.send_bit(0, 0)?;
        script.send_bit(1, 0)?;
        script.close()?;
        script.send_bit(0, 0)?;
        script.close()?;
    }
    script.then(Call::Undecided { places: 2 })?;
    script.then(Call::Undecided { places: 3 })?;
    script.close()?;
    Ok(script)
}

// Node 3 makes its bit 1 for node 1 final in step 3. It still counts in step 4, where node 1 alone decides.
pub fn kept_final(heap: Global) -> Result<Script<Bearing>, AllocError> {
    let mut script = split(heap)?;
    script.send_bit(0, 1)?;
    script.send_bit(1, 1)?;
    script.then(Call::SendFinal {
        sender: 3,
        receiver: 1,
    })?;
    script.close()?;
    script.send_bit(1, 0)?;
    for _step in 4..8 {
        script.close()?;
    }
    Ok(script)
}
