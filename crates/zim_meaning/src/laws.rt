ghost use Rattle.zim_meaning.specs.Worked.{NumbersAreExact, TextsAreLists, OperandsGoFromTheLeft, SetsAreLists, IndicesBindOnce, ParametersKeepTheirValues, FilesAreRead, DoingsStopAtFaults};

/// Nothing to run: the contract shows some statements with what is printed behind them, or with the fault that stops them.
pub fn values_of_some_expressions()
    ensures numbers { NumbersAreExact }
    ensures texts { TextsAreLists }
    ensures order { OperandsGoFromTheLeft }
    ensures sets { SetsAreLists }
    ensures indices { IndicesBindOnce }
    ensures parameters { ParametersKeepTheirValues }
    ensures files { FilesAreRead }
    ensures doings { DoingsStopAtFaults }
{}
