// The command `help`.
use super::super::failure::Failure;
use super::Command;

/// How to call the program.
const TEXT: &str =
    "cuckooshelf marks answers to questions on the memory model GAM: it lists questions and
witnesses, runs steps, checks witnesses and rebuilds steps from them.

  cuckooshelf                      list a sample question and a sample witness for it
  cuckooshelf question FILE        list the question that the bytes of FILE are
  cuckooshelf witness FILE         list the witness that the bytes of FILE are
  cuckooshelf run QUESTION STEPS   run the steps in the file STEPS for the question
                                   in the file QUESTION; behind it may stand
                                   --memory table (as without it) or --memory list
  cuckooshelf check gam|sc QUESTION WITNESS
                                   check the witness in the file WITNESS against
                                   the question in the file QUESTION
  cuckooshelf rebuild QUESTION WITNESS
                                   list the steps that run to the witness in the file
                                   WITNESS, and their bytes
  cuckooshelf mark QUESTION steps|witness ANSWER
                                   mark the answer in the file ANSWER to the question
                                   in the file QUESTION under GAM; behind it may stand
                                   --memory table or --memory list
  cuckooshelf vectors FILE         compare the cases of FILE, one a line
  cuckooshelf help                 print this text

Bytes that are no question or no witness are refused, with a number and a cause.
A step is four bytes: rule, processor, position, guess. The rules are 1 fetch,
2 arithmetic, 3 branch, 4 fence, 5 load, 6 store data, 7 store and 8 address. A run
lists what came of each step: how many entries it removed, or why it was refused.
If every processor is at its end with all done, the run is finished, and its
registers, the cells that are not 0 from the start, its witness and the bytes of
its witness follow.
In the listing of a witness, the memory order 0:1 1:0 is the access of processor 0
at position 1, then that of processor 1 at position 0.
A check lists the verdict, 0 if the witness is accepted under the memory model, else
the number of the first axiom that fails (1 Path, 2 Order, 3 Source, 4 InstOrder,
5 LoadValue) with what is wrong, and the accesses in memory order.
A case is a line such as: question 500000 => ok
or: run QUESTION STEPS => what comes of it, which is compared over both memories.
The status is 1 where a call cannot be carried out or a case differs.

Example: a question for one processor, which stores 5 to cell 1.

  printf '\\120\\0\\10\\4\\377\\377\\377\\0\\1\\0\\5' > five
  cuckooshelf question five

Example: the steps with which it runs to its end.

  printf '\\1\\0\\0\\0\\10\\0\\0\\0\\6\\0\\0\\0\\7\\0\\0\\0' > steps
  cuckooshelf run five steps
";

/// Prints how to call the program.
#[derive(Clone, Copy)]
pub struct Help;

impl Command for Help {
    fn run(&self, rt: &HostRuntime) -> Result<(), Failure> {
        rt.print(TEXT)?;
        Ok(())
    }
}
