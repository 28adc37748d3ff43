// Written by tools/entities. Do not edit.
//! The names of entities and their texts.

/// Each name, with its text after it.
#[rattlefmt::skip]
pub static BYTES: [u8; 20220] = *b"\
    AElig\xc3\x86\
    AMP&\
    Aacute\xc3\x81\
    Abreve\xc4\x82\
    Acirc\xc3\x82\
    Acy\xd0\x90\
    Afr\xf0\x9d\x94\x84\
    Agrave\xc3\x80\
    Alpha\xce\x91\
    Amacr\xc4\x80\
    And\xe2\xa9\x93\
    Aogon\xc4\x84\
    Aopf\xf0\x9d\x94\xb8\
    ApplyFunction\xe2\x81\xa1\
    Aring\xc3\x85\
    Ascr\xf0\x9d\x92\x9c\
    Assign\xe2\x89\x94\
    Atilde\xc3\x83\
    Auml\xc3\x84\
    Backslash\xe2\x88\x96\
    Barv\xe2\xab\xa7\
    Barwed\xe2\x8c\x86\
    Bcy\xd0\x91\
    Because\xe2\x88\xb5\
    Bernoullis\xe2\x84\xac\
    Beta\xce\x92\
    Bfr\xf0\x9d\x94\x85\
    Bopf\xf0\x9d\x94\xb9\
    Breve\xcb\x98\
    Bscr\xe2\x84\xac\
    Bumpeq\xe2\x89\x8e\
    CHcy\xd0\xa7\
    COPY\xc2\xa9\
    Cacute\xc4\x86\
    Cap\xe2\x8b\x92\
    CapitalDifferentialD\xe2\x85\x85\
    Cayleys\xe2\x84\xad\
    Ccaron\xc4\x8c\
    Ccedil\xc3\x87\
    Ccirc\xc4\x88\
    Cconint\xe2\x88\xb0\
    Cdot\xc4\x8a\
    Cedilla\xc2\xb8\
    CenterDot\xc2\xb7\
    Cfr\xe2\x84\xad\
    Chi\xce\xa7\
    CircleDot\xe2\x8a\x99\
    CircleMinus\xe2\x8a\x96\
    CirclePlus\xe2\x8a\x95\
    CircleTimes\xe2\x8a\x97\
    ClockwiseContourIntegral\xe2\x88\xb2\
    CloseCurlyDoubleQuote\xe2\x80\x9d\
    CloseCurlyQuote\xe2\x80\x99\
    Colon\xe2\x88\xb7\
    Colone\xe2\xa9\xb4\
    Congruent\xe2\x89\xa1\
    Conint\xe2\x88\xaf\
    ContourIntegral\xe2\x88\xae\
    Copf\xe2\x84\x82\
    Coproduct\xe2\x88\x90\
    CounterClockwiseContourIntegral\xe2\x88\xb3\
    Cross\xe2\xa8\xaf\
    Cscr\xf0\x9d\x92\x9e\
    Cup\xe2\x8b\x93\
    CupCap\xe2\x89\x8d\
    DD\xe2\x85\x85\
    DDotrahd\xe2\xa4\x91\
    DJcy\xd0\x82\
    DScy\xd0\x85\
    DZcy\xd0\x8f\
    Dagger\xe2\x80\xa1\
    Darr\xe2\x86\xa1\
    Dashv\xe2\xab\xa4\
    Dcaron\xc4\x8e\
    Dcy\xd0\x94\
    Del\xe2\x88\x87\
    Delta\xce\x94\
    Dfr\xf0\x9d\x94\x87\
    DiacriticalAcute\xc2\xb4\
    DiacriticalDot\xcb\x99\
    DiacriticalDoubleAcute\xcb\x9d\
    DiacriticalGrave`\
    DiacriticalTilde\xcb\x9c\
    Diamond\xe2\x8b\x84\
    DifferentialD\xe2\x85\x86\
    Dopf\xf0\x9d\x94\xbb\
    Dot\xc2\xa8\
    DotDot\xe2\x83\x9c\
    DotEqual\xe2\x89\x90\
    DoubleContourIntegral\xe2\x88\xaf\
    DoubleDot\xc2\xa8\
    DoubleDownArrow\xe2\x87\x93\
    DoubleLeftArrow\xe2\x87\x90\
    DoubleLeftRightArrow\xe2\x87\x94\
    DoubleLeftTee\xe2\xab\xa4\
    DoubleLongLeftArrow\xe2\x9f\xb8\
    DoubleLongLeftRightArrow\xe2\x9f\xba\
    DoubleLongRightArrow\xe2\x9f\xb9\
    DoubleRightArrow\xe2\x87\x92\
    DoubleRightTee\xe2\x8a\xa8\
    DoubleUpArrow\xe2\x87\x91\
    DoubleUpDownArrow\xe2\x87\x95\
    DoubleVerticalBar\xe2\x88\xa5\
    DownArrow\xe2\x86\x93\
    DownArrowBar\xe2\xa4\x93\
    DownArrowUpArrow\xe2\x87\xb5\
    DownBreve\xcc\x91\
    DownLeftRightVector\xe2\xa5\x90\
    DownLeftTeeVector\xe2\xa5\x9e\
    DownLeftVector\xe2\x86\xbd\
    DownLeftVectorBar\xe2\xa5\x96\
    DownRightTeeVector\xe2\xa5\x9f\
    DownRightVector\xe2\x87\x81\
    DownRightVectorBar\xe2\xa5\x97\
    DownTee\xe2\x8a\xa4\
    DownTeeArrow\xe2\x86\xa7\
    Downarrow\xe2\x87\x93\
    Dscr\xf0\x9d\x92\x9f\
    Dstrok\xc4\x90\
    ENG\xc5\x8a\
    ETH\xc3\x90\
    Eacute\xc3\x89\
    Ecaron\xc4\x9a\
    Ecirc\xc3\x8a\
    Ecy\xd0\xad\
    Edot\xc4\x96\
    Efr\xf0\x9d\x94\x88\
    Egrave\xc3\x88\
    Element\xe2\x88\x88\
    Emacr\xc4\x92\
    EmptySmallSquare\xe2\x97\xbb\
    EmptyVerySmallSquare\xe2\x96\xab\
    Eogon\xc4\x98\
    Eopf\xf0\x9d\x94\xbc\
    Epsilon\xce\x95\
    Equal\xe2\xa9\xb5\
    EqualTilde\xe2\x89\x82\
    Equilibrium\xe2\x87\x8c\
    Escr\xe2\x84\xb0\
    Esim\xe2\xa9\xb3\
    Eta\xce\x97\
    Euml\xc3\x8b\
    Exists\xe2\x88\x83\
    ExponentialE\xe2\x85\x87\
    Fcy\xd0\xa4\
    Ffr\xf0\x9d\x94\x89\
    FilledSmallSquare\xe2\x97\xbc\
    FilledVerySmallSquare\xe2\x96\xaa\
    Fopf\xf0\x9d\x94\xbd\
    ForAll\xe2\x88\x80\
    Fouriertrf\xe2\x84\xb1\
    Fscr\xe2\x84\xb1\
    GJcy\xd0\x83\
    GT>\
    Gamma\xce\x93\
    Gammad\xcf\x9c\
    Gbreve\xc4\x9e\
    Gcedil\xc4\xa2\
    Gcirc\xc4\x9c\
    Gcy\xd0\x93\
    Gdot\xc4\xa0\
    Gfr\xf0\x9d\x94\x8a\
    Gg\xe2\x8b\x99\
    Gopf\xf0\x9d\x94\xbe\
    GreaterEqual\xe2\x89\xa5\
    GreaterEqualLess\xe2\x8b\x9b\
    GreaterFullEqual\xe2\x89\xa7\
    GreaterGreater\xe2\xaa\xa2\
    GreaterLess\xe2\x89\xb7\
    GreaterSlantEqual\xe2\xa9\xbe\
    GreaterTilde\xe2\x89\xb3\
    Gscr\xf0\x9d\x92\xa2\
    Gt\xe2\x89\xab\
    HARDcy\xd0\xaa\
    Hacek\xcb\x87\
    Hat^\
    Hcirc\xc4\xa4\
    Hfr\xe2\x84\x8c\
    HilbertSpace\xe2\x84\x8b\
    Hopf\xe2\x84\x8d\
    HorizontalLine\xe2\x94\x80\
    Hscr\xe2\x84\x8b\
    Hstrok\xc4\xa6\
    HumpDownHump\xe2\x89\x8e\
    HumpEqual\xe2\x89\x8f\
    IEcy\xd0\x95\
    IJlig\xc4\xb2\
    IOcy\xd0\x81\
    Iacute\xc3\x8d\
    Icirc\xc3\x8e\
    Icy\xd0\x98\
    Idot\xc4\xb0\
    Ifr\xe2\x84\x91\
    Igrave\xc3\x8c\
    Im\xe2\x84\x91\
    Imacr\xc4\xaa\
    ImaginaryI\xe2\x85\x88\
    Implies\xe2\x87\x92\
    Int\xe2\x88\xac\
    Integral\xe2\x88\xab\
    Intersection\xe2\x8b\x82\
    InvisibleComma\xe2\x81\xa3\
    InvisibleTimes\xe2\x81\xa2\
    Iogon\xc4\xae\
    Iopf\xf0\x9d\x95\x80\
    Iota\xce\x99\
    Iscr\xe2\x84\x90\
    Itilde\xc4\xa8\
    Iukcy\xd0\x86\
    Iuml\xc3\x8f\
    Jcirc\xc4\xb4\
    Jcy\xd0\x99\
    Jfr\xf0\x9d\x94\x8d\
    Jopf\xf0\x9d\x95\x81\
    Jscr\xf0\x9d\x92\xa5\
    Jsercy\xd0\x88\
    Jukcy\xd0\x84\
    KHcy\xd0\xa5\
    KJcy\xd0\x8c\
    Kappa\xce\x9a\
    Kcedil\xc4\xb6\
    Kcy\xd0\x9a\
    Kfr\xf0\x9d\x94\x8e\
    Kopf\xf0\x9d\x95\x82\
    Kscr\xf0\x9d\x92\xa6\
    LJcy\xd0\x89\
    LT<\
    Lacute\xc4\xb9\
    Lambda\xce\x9b\
    Lang\xe2\x9f\xaa\
    Laplacetrf\xe2\x84\x92\
    Larr\xe2\x86\x9e\
    Lcaron\xc4\xbd\
    Lcedil\xc4\xbb\
    Lcy\xd0\x9b\
    LeftAngleBracket\xe2\x9f\xa8\
    LeftArrow\xe2\x86\x90\
    LeftArrowBar\xe2\x87\xa4\
    LeftArrowRightArrow\xe2\x87\x86\
    LeftCeiling\xe2\x8c\x88\
    LeftDoubleBracket\xe2\x9f\xa6\
    LeftDownTeeVector\xe2\xa5\xa1\
    LeftDownVector\xe2\x87\x83\
    LeftDownVectorBar\xe2\xa5\x99\
    LeftFloor\xe2\x8c\x8a\
    LeftRightArrow\xe2\x86\x94\
    LeftRightVector\xe2\xa5\x8e\
    LeftTee\xe2\x8a\xa3\
    LeftTeeArrow\xe2\x86\xa4\
    LeftTeeVector\xe2\xa5\x9a\
    LeftTriangle\xe2\x8a\xb2\
    LeftTriangleBar\xe2\xa7\x8f\
    LeftTriangleEqual\xe2\x8a\xb4\
    LeftUpDownVector\xe2\xa5\x91\
    LeftUpTeeVector\xe2\xa5\xa0\
    LeftUpVector\xe2\x86\xbf\
    LeftUpVectorBar\xe2\xa5\x98\
    LeftVector\xe2\x86\xbc\
    LeftVectorBar\xe2\xa5\x92\
    Leftarrow\xe2\x87\x90\
    Leftrightarrow\xe2\x87\x94\
    LessEqualGreater\xe2\x8b\x9a\
    LessFullEqual\xe2\x89\xa6\
    LessGreater\xe2\x89\xb6\
    LessLess\xe2\xaa\xa1\
    LessSlantEqual\xe2\xa9\xbd\
    LessTilde\xe2\x89\xb2\
    Lfr\xf0\x9d\x94\x8f\
    Ll\xe2\x8b\x98\
    Lleftarrow\xe2\x87\x9a\
    Lmidot\xc4\xbf\
    LongLeftArrow\xe2\x9f\xb5\
    LongLeftRightArrow\xe2\x9f\xb7\
    LongRightArrow\xe2\x9f\xb6\
    Longleftarrow\xe2\x9f\xb8\
    Longleftrightarrow\xe2\x9f\xba\
    Longrightarrow\xe2\x9f\xb9\
    Lopf\xf0\x9d\x95\x83\
    LowerLeftArrow\xe2\x86\x99\
    LowerRightArrow\xe2\x86\x98\
    Lscr\xe2\x84\x92\
    Lsh\xe2\x86\xb0\
    Lstrok\xc5\x81\
    Lt\xe2\x89\xaa\
    Map\xe2\xa4\x85\
    Mcy\xd0\x9c\
    MediumSpace\xe2\x81\x9f\
    Mellintrf\xe2\x84\xb3\
    Mfr\xf0\x9d\x94\x90\
    MinusPlus\xe2\x88\x93\
    Mopf\xf0\x9d\x95\x84\
    Mscr\xe2\x84\xb3\
    Mu\xce\x9c\
    NJcy\xd0\x8a\
    Nacute\xc5\x83\
    Ncaron\xc5\x87\
    Ncedil\xc5\x85\
    Ncy\xd0\x9d\
    NegativeMediumSpace\xe2\x80\x8b\
    NegativeThickSpace\xe2\x80\x8b\
    NegativeThinSpace\xe2\x80\x8b\
    NegativeVeryThinSpace\xe2\x80\x8b\
    NestedGreaterGreater\xe2\x89\xab\
    NestedLessLess\xe2\x89\xaa\
    NewLine\x0a\
    Nfr\xf0\x9d\x94\x91\
    NoBreak\xe2\x81\xa0\
    NonBreakingSpace\xc2\xa0\
    Nopf\xe2\x84\x95\
    Not\xe2\xab\xac\
    NotCongruent\xe2\x89\xa2\
    NotCupCap\xe2\x89\xad\
    NotDoubleVerticalBar\xe2\x88\xa6\
    NotElement\xe2\x88\x89\
    NotEqual\xe2\x89\xa0\
    NotEqualTilde\xe2\x89\x82\xcc\xb8\
    NotExists\xe2\x88\x84\
    NotGreater\xe2\x89\xaf\
    NotGreaterEqual\xe2\x89\xb1\
    NotGreaterFullEqual\xe2\x89\xa7\xcc\xb8\
    NotGreaterGreater\xe2\x89\xab\xcc\xb8\
    NotGreaterLess\xe2\x89\xb9\
    NotGreaterSlantEqual\xe2\xa9\xbe\xcc\xb8\
    NotGreaterTilde\xe2\x89\xb5\
    NotHumpDownHump\xe2\x89\x8e\xcc\xb8\
    NotHumpEqual\xe2\x89\x8f\xcc\xb8\
    NotLeftTriangle\xe2\x8b\xaa\
    NotLeftTriangleBar\xe2\xa7\x8f\xcc\xb8\
    NotLeftTriangleEqual\xe2\x8b\xac\
    NotLess\xe2\x89\xae\
    NotLessEqual\xe2\x89\xb0\
    NotLessGreater\xe2\x89\xb8\
    NotLessLess\xe2\x89\xaa\xcc\xb8\
    NotLessSlantEqual\xe2\xa9\xbd\xcc\xb8\
    NotLessTilde\xe2\x89\xb4\
    NotNestedGreaterGreater\xe2\xaa\xa2\xcc\xb8\
    NotNestedLessLess\xe2\xaa\xa1\xcc\xb8\
    NotPrecedes\xe2\x8a\x80\
    NotPrecedesEqual\xe2\xaa\xaf\xcc\xb8\
    NotPrecedesSlantEqual\xe2\x8b\xa0\
    NotReverseElement\xe2\x88\x8c\
    NotRightTriangle\xe2\x8b\xab\
    NotRightTriangleBar\xe2\xa7\x90\xcc\xb8\
    NotRightTriangleEqual\xe2\x8b\xad\
    NotSquareSubset\xe2\x8a\x8f\xcc\xb8\
    NotSquareSubsetEqual\xe2\x8b\xa2\
    NotSquareSuperset\xe2\x8a\x90\xcc\xb8\
    NotSquareSupersetEqual\xe2\x8b\xa3\
    NotSubset\xe2\x8a\x82\xe2\x83\x92\
    NotSubsetEqual\xe2\x8a\x88\
    NotSucceeds\xe2\x8a\x81\
    NotSucceedsEqual\xe2\xaa\xb0\xcc\xb8\
    NotSucceedsSlantEqual\xe2\x8b\xa1\
    NotSucceedsTilde\xe2\x89\xbf\xcc\xb8\
    NotSuperset\xe2\x8a\x83\xe2\x83\x92\
    NotSupersetEqual\xe2\x8a\x89\
    NotTilde\xe2\x89\x81\
    NotTildeEqual\xe2\x89\x84\
    NotTildeFullEqual\xe2\x89\x87\
    NotTildeTilde\xe2\x89\x89\
    NotVerticalBar\xe2\x88\xa4\
    Nscr\xf0\x9d\x92\xa9\
    Ntilde\xc3\x91\
    Nu\xce\x9d\
    OElig\xc5\x92\
    Oacute\xc3\x93\
    Ocirc\xc3\x94\
    Ocy\xd0\x9e\
    Odblac\xc5\x90\
    Ofr\xf0\x9d\x94\x92\
    Ograve\xc3\x92\
    Omacr\xc5\x8c\
    Omega\xce\xa9\
    Omicron\xce\x9f\
    Oopf\xf0\x9d\x95\x86\
    OpenCurlyDoubleQuote\xe2\x80\x9c\
    OpenCurlyQuote\xe2\x80\x98\
    Or\xe2\xa9\x94\
    Oscr\xf0\x9d\x92\xaa\
    Oslash\xc3\x98\
    Otilde\xc3\x95\
    Otimes\xe2\xa8\xb7\
    Ouml\xc3\x96\
    OverBar\xe2\x80\xbe\
    OverBrace\xe2\x8f\x9e\
    OverBracket\xe2\x8e\xb4\
    OverParenthesis\xe2\x8f\x9c\
    PartialD\xe2\x88\x82\
    Pcy\xd0\x9f\
    Pfr\xf0\x9d\x94\x93\
    Phi\xce\xa6\
    Pi\xce\xa0\
    PlusMinus\xc2\xb1\
    Poincareplane\xe2\x84\x8c\
    Popf\xe2\x84\x99\
    Pr\xe2\xaa\xbb\
    Precedes\xe2\x89\xba\
    PrecedesEqual\xe2\xaa\xaf\
    PrecedesSlantEqual\xe2\x89\xbc\
    PrecedesTilde\xe2\x89\xbe\
    Prime\xe2\x80\xb3\
    Product\xe2\x88\x8f\
    Proportion\xe2\x88\xb7\
    Proportional\xe2\x88\x9d\
    Pscr\xf0\x9d\x92\xab\
    Psi\xce\xa8\
    QUOT\"\
    Qfr\xf0\x9d\x94\x94\
    Qopf\xe2\x84\x9a\
    Qscr\xf0\x9d\x92\xac\
    RBarr\xe2\xa4\x90\
    REG\xc2\xae\
    Racute\xc5\x94\
    Rang\xe2\x9f\xab\
    Rarr\xe2\x86\xa0\
    Rarrtl\xe2\xa4\x96\
    Rcaron\xc5\x98\
    Rcedil\xc5\x96\
    Rcy\xd0\xa0\
    Re\xe2\x84\x9c\
    ReverseElement\xe2\x88\x8b\
    ReverseEquilibrium\xe2\x87\x8b\
    ReverseUpEquilibrium\xe2\xa5\xaf\
    Rfr\xe2\x84\x9c\
    Rho\xce\xa1\
    RightAngleBracket\xe2\x9f\xa9\
    RightArrow\xe2\x86\x92\
    RightArrowBar\xe2\x87\xa5\
    RightArrowLeftArrow\xe2\x87\x84\
    RightCeiling\xe2\x8c\x89\
    RightDoubleBracket\xe2\x9f\xa7\
    RightDownTeeVector\xe2\xa5\x9d\
    RightDownVector\xe2\x87\x82\
    RightDownVectorBar\xe2\xa5\x95\
    RightFloor\xe2\x8c\x8b\
    RightTee\xe2\x8a\xa2\
    RightTeeArrow\xe2\x86\xa6\
    RightTeeVector\xe2\xa5\x9b\
    RightTriangle\xe2\x8a\xb3\
    RightTriangleBar\xe2\xa7\x90\
    RightTriangleEqual\xe2\x8a\xb5\
    RightUpDownVector\xe2\xa5\x8f\
    RightUpTeeVector\xe2\xa5\x9c\
    RightUpVector\xe2\x86\xbe\
    RightUpVectorBar\xe2\xa5\x94\
    RightVector\xe2\x87\x80\
    RightVectorBar\xe2\xa5\x93\
    Rightarrow\xe2\x87\x92\
    Ropf\xe2\x84\x9d\
    RoundImplies\xe2\xa5\xb0\
    Rrightarrow\xe2\x87\x9b\
    Rscr\xe2\x84\x9b\
    Rsh\xe2\x86\xb1\
    RuleDelayed\xe2\xa7\xb4\
    SHCHcy\xd0\xa9\
    SHcy\xd0\xa8\
    SOFTcy\xd0\xac\
    Sacute\xc5\x9a\
    Sc\xe2\xaa\xbc\
    Scaron\xc5\xa0\
    Scedil\xc5\x9e\
    Scirc\xc5\x9c\
    Scy\xd0\xa1\
    Sfr\xf0\x9d\x94\x96\
    ShortDownArrow\xe2\x86\x93\
    ShortLeftArrow\xe2\x86\x90\
    ShortRightArrow\xe2\x86\x92\
    ShortUpArrow\xe2\x86\x91\
    Sigma\xce\xa3\
    SmallCircle\xe2\x88\x98\
    Sopf\xf0\x9d\x95\x8a\
    Sqrt\xe2\x88\x9a\
    Square\xe2\x96\xa1\
    SquareIntersection\xe2\x8a\x93\
    SquareSubset\xe2\x8a\x8f\
    SquareSubsetEqual\xe2\x8a\x91\
    SquareSuperset\xe2\x8a\x90\
    SquareSupersetEqual\xe2\x8a\x92\
    SquareUnion\xe2\x8a\x94\
    Sscr\xf0\x9d\x92\xae\
    Star\xe2\x8b\x86\
    Sub\xe2\x8b\x90\
    Subset\xe2\x8b\x90\
    SubsetEqual\xe2\x8a\x86\
    Succeeds\xe2\x89\xbb\
    SucceedsEqual\xe2\xaa\xb0\
    SucceedsSlantEqual\xe2\x89\xbd\
    SucceedsTilde\xe2\x89\xbf\
    SuchThat\xe2\x88\x8b\
    Sum\xe2\x88\x91\
    Sup\xe2\x8b\x91\
    Superset\xe2\x8a\x83\
    SupersetEqual\xe2\x8a\x87\
    Supset\xe2\x8b\x91\
    THORN\xc3\x9e\
    TRADE\xe2\x84\xa2\
    TSHcy\xd0\x8b\
    TScy\xd0\xa6\
    Tab\x09\
    Tau\xce\xa4\
    Tcaron\xc5\xa4\
    Tcedil\xc5\xa2\
    Tcy\xd0\xa2\
    Tfr\xf0\x9d\x94\x97\
    Therefore\xe2\x88\xb4\
    Theta\xce\x98\
    ThickSpace\xe2\x81\x9f\xe2\x80\x8a\
    ThinSpace\xe2\x80\x89\
    Tilde\xe2\x88\xbc\
    TildeEqual\xe2\x89\x83\
    TildeFullEqual\xe2\x89\x85\
    TildeTilde\xe2\x89\x88\
    Topf\xf0\x9d\x95\x8b\
    TripleDot\xe2\x83\x9b\
    Tscr\xf0\x9d\x92\xaf\
    Tstrok\xc5\xa6\
    Uacute\xc3\x9a\
    Uarr\xe2\x86\x9f\
    Uarrocir\xe2\xa5\x89\
    Ubrcy\xd0\x8e\
    Ubreve\xc5\xac\
    Ucirc\xc3\x9b\
    Ucy\xd0\xa3\
    Udblac\xc5\xb0\
    Ufr\xf0\x9d\x94\x98\
    Ugrave\xc3\x99\
    Umacr\xc5\xaa\
    UnderBar_\
    UnderBrace\xe2\x8f\x9f\
    UnderBracket\xe2\x8e\xb5\
    UnderParenthesis\xe2\x8f\x9d\
    Union\xe2\x8b\x83\
    UnionPlus\xe2\x8a\x8e\
    Uogon\xc5\xb2\
    Uopf\xf0\x9d\x95\x8c\
    UpArrow\xe2\x86\x91\
    UpArrowBar\xe2\xa4\x92\
    UpArrowDownArrow\xe2\x87\x85\
    UpDownArrow\xe2\x86\x95\
    UpEquilibrium\xe2\xa5\xae\
    UpTee\xe2\x8a\xa5\
    UpTeeArrow\xe2\x86\xa5\
    Uparrow\xe2\x87\x91\
    Updownarrow\xe2\x87\x95\
    UpperLeftArrow\xe2\x86\x96\
    UpperRightArrow\xe2\x86\x97\
    Upsi\xcf\x92\
    Upsilon\xce\xa5\
    Uring\xc5\xae\
    Uscr\xf0\x9d\x92\xb0\
    Utilde\xc5\xa8\
    Uuml\xc3\x9c\
    VDash\xe2\x8a\xab\
    Vbar\xe2\xab\xab\
    Vcy\xd0\x92\
    Vdash\xe2\x8a\xa9\
    Vdashl\xe2\xab\xa6\
    Vee\xe2\x8b\x81\
    Verbar\xe2\x80\x96\
    Vert\xe2\x80\x96\
    VerticalBar\xe2\x88\xa3\
    VerticalLine|\
    VerticalSeparator\xe2\x9d\x98\
    VerticalTilde\xe2\x89\x80\
    VeryThinSpace\xe2\x80\x8a\
    Vfr\xf0\x9d\x94\x99\
    Vopf\xf0\x9d\x95\x8d\
    Vscr\xf0\x9d\x92\xb1\
    Vvdash\xe2\x8a\xaa\
    Wcirc\xc5\xb4\
    Wedge\xe2\x8b\x80\
    Wfr\xf0\x9d\x94\x9a\
    Wopf\xf0\x9d\x95\x8e\
    Wscr\xf0\x9d\x92\xb2\
    Xfr\xf0\x9d\x94\x9b\
    Xi\xce\x9e\
    Xopf\xf0\x9d\x95\x8f\
    Xscr\xf0\x9d\x92\xb3\
    YAcy\xd0\xaf\
    YIcy\xd0\x87\
    YUcy\xd0\xae\
    Yacute\xc3\x9d\
    Ycirc\xc5\xb6\
    Ycy\xd0\xab\
    Yfr\xf0\x9d\x94\x9c\
    Yopf\xf0\x9d\x95\x90\
    Yscr\xf0\x9d\x92\xb4\
    Yuml\xc5\xb8\
    ZHcy\xd0\x96\
    Zacute\xc5\xb9\
    Zcaron\xc5\xbd\
    Zcy\xd0\x97\
    Zdot\xc5\xbb\
    ZeroWidthSpace\xe2\x80\x8b\
    Zeta\xce\x96\
    Zfr\xe2\x84\xa8\
    Zopf\xe2\x84\xa4\
    Zscr\xf0\x9d\x92\xb5\
    aacute\xc3\xa1\
    abreve\xc4\x83\
    ac\xe2\x88\xbe\
    acE\xe2\x88\xbe\xcc\xb3\
    acd\xe2\x88\xbf\
    acirc\xc3\xa2\
    acute\xc2\xb4\
    acy\xd0\xb0\
    aelig\xc3\xa6\
    af\xe2\x81\xa1\
    afr\xf0\x9d\x94\x9e\
    agrave\xc3\xa0\
    alefsym\xe2\x84\xb5\
    aleph\xe2\x84\xb5\
    alpha\xce\xb1\
    amacr\xc4\x81\
    amalg\xe2\xa8\xbf\
    amp&\
    and\xe2\x88\xa7\
    andand\xe2\xa9\x95\
    andd\xe2\xa9\x9c\
    andslope\xe2\xa9\x98\
    andv\xe2\xa9\x9a\
    ang\xe2\x88\xa0\
    ange\xe2\xa6\xa4\
    angle\xe2\x88\xa0\
    angmsd\xe2\x88\xa1\
    angmsdaa\xe2\xa6\xa8\
    angmsdab\xe2\xa6\xa9\
    angmsdac\xe2\xa6\xaa\
    angmsdad\xe2\xa6\xab\
    angmsdae\xe2\xa6\xac\
    angmsdaf\xe2\xa6\xad\
    angmsdag\xe2\xa6\xae\
    angmsdah\xe2\xa6\xaf\
    angrt\xe2\x88\x9f\
    angrtvb\xe2\x8a\xbe\
    angrtvbd\xe2\xa6\x9d\
    angsph\xe2\x88\xa2\
    angst\xc3\x85\
    angzarr\xe2\x8d\xbc\
    aogon\xc4\x85\
    aopf\xf0\x9d\x95\x92\
    ap\xe2\x89\x88\
    apE\xe2\xa9\xb0\
    apacir\xe2\xa9\xaf\
    ape\xe2\x89\x8a\
    apid\xe2\x89\x8b\
    apos'\
    approx\xe2\x89\x88\
    approxeq\xe2\x89\x8a\
    aring\xc3\xa5\
    ascr\xf0\x9d\x92\xb6\
    ast*\
    asymp\xe2\x89\x88\
    asympeq\xe2\x89\x8d\
    atilde\xc3\xa3\
    auml\xc3\xa4\
    awconint\xe2\x88\xb3\
    awint\xe2\xa8\x91\
    bNot\xe2\xab\xad\
    backcong\xe2\x89\x8c\
    backepsilon\xcf\xb6\
    backprime\xe2\x80\xb5\
    backsim\xe2\x88\xbd\
    backsimeq\xe2\x8b\x8d\
    barvee\xe2\x8a\xbd\
    barwed\xe2\x8c\x85\
    barwedge\xe2\x8c\x85\
    bbrk\xe2\x8e\xb5\
    bbrktbrk\xe2\x8e\xb6\
    bcong\xe2\x89\x8c\
    bcy\xd0\xb1\
    bdquo\xe2\x80\x9e\
    becaus\xe2\x88\xb5\
    because\xe2\x88\xb5\
    bemptyv\xe2\xa6\xb0\
    bepsi\xcf\xb6\
    bernou\xe2\x84\xac\
    beta\xce\xb2\
    beth\xe2\x84\xb6\
    between\xe2\x89\xac\
    bfr\xf0\x9d\x94\x9f\
    bigcap\xe2\x8b\x82\
    bigcirc\xe2\x97\xaf\
    bigcup\xe2\x8b\x83\
    bigodot\xe2\xa8\x80\
    bigoplus\xe2\xa8\x81\
    bigotimes\xe2\xa8\x82\
    bigsqcup\xe2\xa8\x86\
    bigstar\xe2\x98\x85\
    bigtriangledown\xe2\x96\xbd\
    bigtriangleup\xe2\x96\xb3\
    biguplus\xe2\xa8\x84\
    bigvee\xe2\x8b\x81\
    bigwedge\xe2\x8b\x80\
    bkarow\xe2\xa4\x8d\
    blacklozenge\xe2\xa7\xab\
    blacksquare\xe2\x96\xaa\
    blacktriangle\xe2\x96\xb4\
    blacktriangledown\xe2\x96\xbe\
    blacktriangleleft\xe2\x97\x82\
    blacktriangleright\xe2\x96\xb8\
    blank\xe2\x90\xa3\
    blk12\xe2\x96\x92\
    blk14\xe2\x96\x91\
    blk34\xe2\x96\x93\
    block\xe2\x96\x88\
    bne=\xe2\x83\xa5\
    bnequiv\xe2\x89\xa1\xe2\x83\xa5\
    bnot\xe2\x8c\x90\
    bopf\xf0\x9d\x95\x93\
    bot\xe2\x8a\xa5\
    bottom\xe2\x8a\xa5\
    bowtie\xe2\x8b\x88\
    boxDL\xe2\x95\x97\
    boxDR\xe2\x95\x94\
    boxDl\xe2\x95\x96\
    boxDr\xe2\x95\x93\
    boxH\xe2\x95\x90\
    boxHD\xe2\x95\xa6\
    boxHU\xe2\x95\xa9\
    boxHd\xe2\x95\xa4\
    boxHu\xe2\x95\xa7\
    boxUL\xe2\x95\x9d\
    boxUR\xe2\x95\x9a\
    boxUl\xe2\x95\x9c\
    boxUr\xe2\x95\x99\
    boxV\xe2\x95\x91\
    boxVH\xe2\x95\xac\
    boxVL\xe2\x95\xa3\
    boxVR\xe2\x95\xa0\
    boxVh\xe2\x95\xab\
    boxVl\xe2\x95\xa2\
    boxVr\xe2\x95\x9f\
    boxbox\xe2\xa7\x89\
    boxdL\xe2\x95\x95\
    boxdR\xe2\x95\x92\
    boxdl\xe2\x94\x90\
    boxdr\xe2\x94\x8c\
    boxh\xe2\x94\x80\
    boxhD\xe2\x95\xa5\
    boxhU\xe2\x95\xa8\
    boxhd\xe2\x94\xac\
    boxhu\xe2\x94\xb4\
    boxminus\xe2\x8a\x9f\
    boxplus\xe2\x8a\x9e\
    boxtimes\xe2\x8a\xa0\
    boxuL\xe2\x95\x9b\
    boxuR\xe2\x95\x98\
    boxul\xe2\x94\x98\
    boxur\xe2\x94\x94\
    boxv\xe2\x94\x82\
    boxvH\xe2\x95\xaa\
    boxvL\xe2\x95\xa1\
    boxvR\xe2\x95\x9e\
    boxvh\xe2\x94\xbc\
    boxvl\xe2\x94\xa4\
    boxvr\xe2\x94\x9c\
    bprime\xe2\x80\xb5\
    breve\xcb\x98\
    brvbar\xc2\xa6\
    bscr\xf0\x9d\x92\xb7\
    bsemi\xe2\x81\x8f\
    bsim\xe2\x88\xbd\
    bsime\xe2\x8b\x8d\
    bsol\\\
    bsolb\xe2\xa7\x85\
    bsolhsub\xe2\x9f\x88\
    bull\xe2\x80\xa2\
    bullet\xe2\x80\xa2\
    bump\xe2\x89\x8e\
    bumpE\xe2\xaa\xae\
    bumpe\xe2\x89\x8f\
    bumpeq\xe2\x89\x8f\
    cacute\xc4\x87\
    cap\xe2\x88\xa9\
    capand\xe2\xa9\x84\
    capbrcup\xe2\xa9\x89\
    capcap\xe2\xa9\x8b\
    capcup\xe2\xa9\x87\
    capdot\xe2\xa9\x80\
    caps\xe2\x88\xa9\xef\xb8\x80\
    caret\xe2\x81\x81\
    caron\xcb\x87\
    ccaps\xe2\xa9\x8d\
    ccaron\xc4\x8d\
    ccedil\xc3\xa7\
    ccirc\xc4\x89\
    ccups\xe2\xa9\x8c\
    ccupssm\xe2\xa9\x90\
    cdot\xc4\x8b\
    cedil\xc2\xb8\
    cemptyv\xe2\xa6\xb2\
    cent\xc2\xa2\
    centerdot\xc2\xb7\
    cfr\xf0\x9d\x94\xa0\
    chcy\xd1\x87\
    check\xe2\x9c\x93\
    checkmark\xe2\x9c\x93\
    chi\xcf\x87\
    cir\xe2\x97\x8b\
    cirE\xe2\xa7\x83\
    circ\xcb\x86\
    circeq\xe2\x89\x97\
    circlearrowleft\xe2\x86\xba\
    circlearrowright\xe2\x86\xbb\
    circledR\xc2\xae\
    circledS\xe2\x93\x88\
    circledast\xe2\x8a\x9b\
    circledcirc\xe2\x8a\x9a\
    circleddash\xe2\x8a\x9d\
    cire\xe2\x89\x97\
    cirfnint\xe2\xa8\x90\
    cirmid\xe2\xab\xaf\
    cirscir\xe2\xa7\x82\
    clubs\xe2\x99\xa3\
    clubsuit\xe2\x99\xa3\
    colon:\
    colone\xe2\x89\x94\
    coloneq\xe2\x89\x94\
    comma,\
    commat@\
    comp\xe2\x88\x81\
    compfn\xe2\x88\x98\
    complement\xe2\x88\x81\
    complexes\xe2\x84\x82\
    cong\xe2\x89\x85\
    congdot\xe2\xa9\xad\
    conint\xe2\x88\xae\
    copf\xf0\x9d\x95\x94\
    coprod\xe2\x88\x90\
    copy\xc2\xa9\
    copysr\xe2\x84\x97\
    crarr\xe2\x86\xb5\
    cross\xe2\x9c\x97\
    cscr\xf0\x9d\x92\xb8\
    csub\xe2\xab\x8f\
    csube\xe2\xab\x91\
    csup\xe2\xab\x90\
    csupe\xe2\xab\x92\
    ctdot\xe2\x8b\xaf\
    cudarrl\xe2\xa4\xb8\
    cudarrr\xe2\xa4\xb5\
    cuepr\xe2\x8b\x9e\
    cuesc\xe2\x8b\x9f\
    cularr\xe2\x86\xb6\
    cularrp\xe2\xa4\xbd\
    cup\xe2\x88\xaa\
    cupbrcap\xe2\xa9\x88\
    cupcap\xe2\xa9\x86\
    cupcup\xe2\xa9\x8a\
    cupdot\xe2\x8a\x8d\
    cupor\xe2\xa9\x85\
    cups\xe2\x88\xaa\xef\xb8\x80\
    curarr\xe2\x86\xb7\
    curarrm\xe2\xa4\xbc\
    curlyeqprec\xe2\x8b\x9e\
    curlyeqsucc\xe2\x8b\x9f\
    curlyvee\xe2\x8b\x8e\
    curlywedge\xe2\x8b\x8f\
    curren\xc2\xa4\
    curvearrowleft\xe2\x86\xb6\
    curvearrowright\xe2\x86\xb7\
    cuvee\xe2\x8b\x8e\
    cuwed\xe2\x8b\x8f\
    cwconint\xe2\x88\xb2\
    cwint\xe2\x88\xb1\
    cylcty\xe2\x8c\xad\
    dArr\xe2\x87\x93\
    dHar\xe2\xa5\xa5\
    dagger\xe2\x80\xa0\
    daleth\xe2\x84\xb8\
    darr\xe2\x86\x93\
    dash\xe2\x80\x90\
    dashv\xe2\x8a\xa3\
    dbkarow\xe2\xa4\x8f\
    dblac\xcb\x9d\
    dcaron\xc4\x8f\
    dcy\xd0\xb4\
    dd\xe2\x85\x86\
    ddagger\xe2\x80\xa1\
    ddarr\xe2\x87\x8a\
    ddotseq\xe2\xa9\xb7\
    deg\xc2\xb0\
    delta\xce\xb4\
    demptyv\xe2\xa6\xb1\
    dfisht\xe2\xa5\xbf\
    dfr\xf0\x9d\x94\xa1\
    dharl\xe2\x87\x83\
    dharr\xe2\x87\x82\
    diam\xe2\x8b\x84\
    diamond\xe2\x8b\x84\
    diamondsuit\xe2\x99\xa6\
    diams\xe2\x99\xa6\
    die\xc2\xa8\
    digamma\xcf\x9d\
    disin\xe2\x8b\xb2\
    div\xc3\xb7\
    divide\xc3\xb7\
    divideontimes\xe2\x8b\x87\
    divonx\xe2\x8b\x87\
    djcy\xd1\x92\
    dlcorn\xe2\x8c\x9e\
    dlcrop\xe2\x8c\x8d\
    dollar$\
    dopf\xf0\x9d\x95\x95\
    dot\xcb\x99\
    doteq\xe2\x89\x90\
    doteqdot\xe2\x89\x91\
    dotminus\xe2\x88\xb8\
    dotplus\xe2\x88\x94\
    dotsquare\xe2\x8a\xa1\
    doublebarwedge\xe2\x8c\x86\
    downarrow\xe2\x86\x93\
    downdownarrows\xe2\x87\x8a\
    downharpoonleft\xe2\x87\x83\
    downharpoonright\xe2\x87\x82\
    drbkarow\xe2\xa4\x90\
    drcorn\xe2\x8c\x9f\
    drcrop\xe2\x8c\x8c\
    dscr\xf0\x9d\x92\xb9\
    dscy\xd1\x95\
    dsol\xe2\xa7\xb6\
    dstrok\xc4\x91\
    dtdot\xe2\x8b\xb1\
    dtri\xe2\x96\xbf\
    dtrif\xe2\x96\xbe\
    duarr\xe2\x87\xb5\
    duhar\xe2\xa5\xaf\
    dwangle\xe2\xa6\xa6\
    dzcy\xd1\x9f\
    dzigrarr\xe2\x9f\xbf\
    eDDot\xe2\xa9\xb7\
    eDot\xe2\x89\x91\
    eacute\xc3\xa9\
    easter\xe2\xa9\xae\
    ecaron\xc4\x9b\
    ecir\xe2\x89\x96\
    ecirc\xc3\xaa\
    ecolon\xe2\x89\x95\
    ecy\xd1\x8d\
    edot\xc4\x97\
    ee\xe2\x85\x87\
    efDot\xe2\x89\x92\
    efr\xf0\x9d\x94\xa2\
    eg\xe2\xaa\x9a\
    egrave\xc3\xa8\
    egs\xe2\xaa\x96\
    egsdot\xe2\xaa\x98\
    el\xe2\xaa\x99\
    elinters\xe2\x8f\xa7\
    ell\xe2\x84\x93\
    els\xe2\xaa\x95\
    elsdot\xe2\xaa\x97\
    emacr\xc4\x93\
    empty\xe2\x88\x85\
    emptyset\xe2\x88\x85\
    emptyv\xe2\x88\x85\
    emsp\xe2\x80\x83\
    emsp13\xe2\x80\x84\
    emsp14\xe2\x80\x85\
    eng\xc5\x8b\
    ensp\xe2\x80\x82\
    eogon\xc4\x99\
    eopf\xf0\x9d\x95\x96\
    epar\xe2\x8b\x95\
    eparsl\xe2\xa7\xa3\
    eplus\xe2\xa9\xb1\
    epsi\xce\xb5\
    epsilon\xce\xb5\
    epsiv\xcf\xb5\
    eqcirc\xe2\x89\x96\
    eqcolon\xe2\x89\x95\
    eqsim\xe2\x89\x82\
    eqslantgtr\xe2\xaa\x96\
    eqslantless\xe2\xaa\x95\
    equals=\
    equest\xe2\x89\x9f\
    equiv\xe2\x89\xa1\
    equivDD\xe2\xa9\xb8\
    eqvparsl\xe2\xa7\xa5\
    erDot\xe2\x89\x93\
    erarr\xe2\xa5\xb1\
    escr\xe2\x84\xaf\
    esdot\xe2\x89\x90\
    esim\xe2\x89\x82\
    eta\xce\xb7\
    eth\xc3\xb0\
    euml\xc3\xab\
    euro\xe2\x82\xac\
    excl!\
    exist\xe2\x88\x83\
    expectation\xe2\x84\xb0\
    exponentiale\xe2\x85\x87\
    fallingdotseq\xe2\x89\x92\
    fcy\xd1\x84\
    female\xe2\x99\x80\
    ffilig\xef\xac\x83\
    fflig\xef\xac\x80\
    ffllig\xef\xac\x84\
    ffr\xf0\x9d\x94\xa3\
    filig\xef\xac\x81\
    fjligfj\
    flat\xe2\x99\xad\
    fllig\xef\xac\x82\
    fltns\xe2\x96\xb1\
    fnof\xc6\x92\
    fopf\xf0\x9d\x95\x97\
    forall\xe2\x88\x80\
    fork\xe2\x8b\x94\
    forkv\xe2\xab\x99\
    fpartint\xe2\xa8\x8d\
    frac12\xc2\xbd\
    frac13\xe2\x85\x93\
    frac14\xc2\xbc\
    frac15\xe2\x85\x95\
    frac16\xe2\x85\x99\
    frac18\xe2\x85\x9b\
    frac23\xe2\x85\x94\
    frac25\xe2\x85\x96\
    frac34\xc2\xbe\
    frac35\xe2\x85\x97\
    frac38\xe2\x85\x9c\
    frac45\xe2\x85\x98\
    frac56\xe2\x85\x9a\
    frac58\xe2\x85\x9d\
    frac78\xe2\x85\x9e\
    frasl\xe2\x81\x84\
    frown\xe2\x8c\xa2\
    fscr\xf0\x9d\x92\xbb\
    gE\xe2\x89\xa7\
    gEl\xe2\xaa\x8c\
    gacute\xc7\xb5\
    gamma\xce\xb3\
    gammad\xcf\x9d\
    gap\xe2\xaa\x86\
    gbreve\xc4\x9f\
    gcirc\xc4\x9d\
    gcy\xd0\xb3\
    gdot\xc4\xa1\
    ge\xe2\x89\xa5\
    gel\xe2\x8b\x9b\
    geq\xe2\x89\xa5\
    geqq\xe2\x89\xa7\
    geqslant\xe2\xa9\xbe\
    ges\xe2\xa9\xbe\
    gescc\xe2\xaa\xa9\
    gesdot\xe2\xaa\x80\
    gesdoto\xe2\xaa\x82\
    gesdotol\xe2\xaa\x84\
    gesl\xe2\x8b\x9b\xef\xb8\x80\
    gesles\xe2\xaa\x94\
    gfr\xf0\x9d\x94\xa4\
    gg\xe2\x89\xab\
    ggg\xe2\x8b\x99\
    gimel\xe2\x84\xb7\
    gjcy\xd1\x93\
    gl\xe2\x89\xb7\
    glE\xe2\xaa\x92\
    gla\xe2\xaa\xa5\
    glj\xe2\xaa\xa4\
    gnE\xe2\x89\xa9\
    gnap\xe2\xaa\x8a\
    gnapprox\xe2\xaa\x8a\
    gne\xe2\xaa\x88\
    gneq\xe2\xaa\x88\
    gneqq\xe2\x89\xa9\
    gnsim\xe2\x8b\xa7\
    gopf\xf0\x9d\x95\x98\
    grave`\
    gscr\xe2\x84\x8a\
    gsim\xe2\x89\xb3\
    gsime\xe2\xaa\x8e\
    gsiml\xe2\xaa\x90\
    gt>\
    gtcc\xe2\xaa\xa7\
    gtcir\xe2\xa9\xba\
    gtdot\xe2\x8b\x97\
    gtlPar\xe2\xa6\x95\
    gtquest\xe2\xa9\xbc\
    gtrapprox\xe2\xaa\x86\
    gtrarr\xe2\xa5\xb8\
    gtrdot\xe2\x8b\x97\
    gtreqless\xe2\x8b\x9b\
    gtreqqless\xe2\xaa\x8c\
    gtrless\xe2\x89\xb7\
    gtrsim\xe2\x89\xb3\
    gvertneqq\xe2\x89\xa9\xef\xb8\x80\
    gvnE\xe2\x89\xa9\xef\xb8\x80\
    hArr\xe2\x87\x94\
    hairsp\xe2\x80\x8a\
    half\xc2\xbd\
    hamilt\xe2\x84\x8b\
    hardcy\xd1\x8a\
    harr\xe2\x86\x94\
    harrcir\xe2\xa5\x88\
    harrw\xe2\x86\xad\
    hbar\xe2\x84\x8f\
    hcirc\xc4\xa5\
    hearts\xe2\x99\xa5\
    heartsuit\xe2\x99\xa5\
    hellip\xe2\x80\xa6\
    hercon\xe2\x8a\xb9\
    hfr\xf0\x9d\x94\xa5\
    hksearow\xe2\xa4\xa5\
    hkswarow\xe2\xa4\xa6\
    hoarr\xe2\x87\xbf\
    homtht\xe2\x88\xbb\
    hookleftarrow\xe2\x86\xa9\
    hookrightarrow\xe2\x86\xaa\
    hopf\xf0\x9d\x95\x99\
    horbar\xe2\x80\x95\
    hscr\xf0\x9d\x92\xbd\
    hslash\xe2\x84\x8f\
    hstrok\xc4\xa7\
    hybull\xe2\x81\x83\
    hyphen\xe2\x80\x90\
    iacute\xc3\xad\
    ic\xe2\x81\xa3\
    icirc\xc3\xae\
    icy\xd0\xb8\
    iecy\xd0\xb5\
    iexcl\xc2\xa1\
    iff\xe2\x87\x94\
    ifr\xf0\x9d\x94\xa6\
    igrave\xc3\xac\
    ii\xe2\x85\x88\
    iiiint\xe2\xa8\x8c\
    iiint\xe2\x88\xad\
    iinfin\xe2\xa7\x9c\
    iiota\xe2\x84\xa9\
    ijlig\xc4\xb3\
    imacr\xc4\xab\
    image\xe2\x84\x91\
    imagline\xe2\x84\x90\
    imagpart\xe2\x84\x91\
    imath\xc4\xb1\
    imof\xe2\x8a\xb7\
    imped\xc6\xb5\
    in\xe2\x88\x88\
    incare\xe2\x84\x85\
    infin\xe2\x88\x9e\
    infintie\xe2\xa7\x9d\
    inodot\xc4\xb1\
    int\xe2\x88\xab\
    intcal\xe2\x8a\xba\
    integers\xe2\x84\xa4\
    intercal\xe2\x8a\xba\
    intlarhk\xe2\xa8\x97\
    intprod\xe2\xa8\xbc\
    iocy\xd1\x91\
    iogon\xc4\xaf\
    iopf\xf0\x9d\x95\x9a\
    iota\xce\xb9\
    iprod\xe2\xa8\xbc\
    iquest\xc2\xbf\
    iscr\xf0\x9d\x92\xbe\
    isin\xe2\x88\x88\
    isinE\xe2\x8b\xb9\
    isindot\xe2\x8b\xb5\
    isins\xe2\x8b\xb4\
    isinsv\xe2\x8b\xb3\
    isinv\xe2\x88\x88\
    it\xe2\x81\xa2\
    itilde\xc4\xa9\
    iukcy\xd1\x96\
    iuml\xc3\xaf\
    jcirc\xc4\xb5\
    jcy\xd0\xb9\
    jfr\xf0\x9d\x94\xa7\
    jmath\xc8\xb7\
    jopf\xf0\x9d\x95\x9b\
    jscr\xf0\x9d\x92\xbf\
    jsercy\xd1\x98\
    jukcy\xd1\x94\
    kappa\xce\xba\
    kappav\xcf\xb0\
    kcedil\xc4\xb7\
    kcy\xd0\xba\
    kfr\xf0\x9d\x94\xa8\
    kgreen\xc4\xb8\
    khcy\xd1\x85\
    kjcy\xd1\x9c\
    kopf\xf0\x9d\x95\x9c\
    kscr\xf0\x9d\x93\x80\
    lAarr\xe2\x87\x9a\
    lArr\xe2\x87\x90\
    lAtail\xe2\xa4\x9b\
    lBarr\xe2\xa4\x8e\
    lE\xe2\x89\xa6\
    lEg\xe2\xaa\x8b\
    lHar\xe2\xa5\xa2\
    lacute\xc4\xba\
    laemptyv\xe2\xa6\xb4\
    lagran\xe2\x84\x92\
    lambda\xce\xbb\
    lang\xe2\x9f\xa8\
    langd\xe2\xa6\x91\
    langle\xe2\x9f\xa8\
    lap\xe2\xaa\x85\
    laquo\xc2\xab\
    larr\xe2\x86\x90\
    larrb\xe2\x87\xa4\
    larrbfs\xe2\xa4\x9f\
    larrfs\xe2\xa4\x9d\
    larrhk\xe2\x86\xa9\
    larrlp\xe2\x86\xab\
    larrpl\xe2\xa4\xb9\
    larrsim\xe2\xa5\xb3\
    larrtl\xe2\x86\xa2\
    lat\xe2\xaa\xab\
    latail\xe2\xa4\x99\
    late\xe2\xaa\xad\
    lates\xe2\xaa\xad\xef\xb8\x80\
    lbarr\xe2\xa4\x8c\
    lbbrk\xe2\x9d\xb2\
    lbrace{\
    lbrack[\
    lbrke\xe2\xa6\x8b\
    lbrksld\xe2\xa6\x8f\
    lbrkslu\xe2\xa6\x8d\
    lcaron\xc4\xbe\
    lcedil\xc4\xbc\
    lceil\xe2\x8c\x88\
    lcub{\
    lcy\xd0\xbb\
    ldca\xe2\xa4\xb6\
    ldquo\xe2\x80\x9c\
    ldquor\xe2\x80\x9e\
    ldrdhar\xe2\xa5\xa7\
    ldrushar\xe2\xa5\x8b\
    ldsh\xe2\x86\xb2\
    le\xe2\x89\xa4\
    leftarrow\xe2\x86\x90\
    leftarrowtail\xe2\x86\xa2\
    leftharpoondown\xe2\x86\xbd\
    leftharpoonup\xe2\x86\xbc\
    leftleftarrows\xe2\x87\x87\
    leftrightarrow\xe2\x86\x94\
    leftrightarrows\xe2\x87\x86\
    leftrightharpoons\xe2\x87\x8b\
    leftrightsquigarrow\xe2\x86\xad\
    leftthreetimes\xe2\x8b\x8b\
    leg\xe2\x8b\x9a\
    leq\xe2\x89\xa4\
    leqq\xe2\x89\xa6\
    leqslant\xe2\xa9\xbd\
    les\xe2\xa9\xbd\
    lescc\xe2\xaa\xa8\
    lesdot\xe2\xa9\xbf\
    lesdoto\xe2\xaa\x81\
    lesdotor\xe2\xaa\x83\
    lesg\xe2\x8b\x9a\xef\xb8\x80\
    lesges\xe2\xaa\x93\
    lessapprox\xe2\xaa\x85\
    lessdot\xe2\x8b\x96\
    lesseqgtr\xe2\x8b\x9a\
    lesseqqgtr\xe2\xaa\x8b\
    lessgtr\xe2\x89\xb6\
    lesssim\xe2\x89\xb2\
    lfisht\xe2\xa5\xbc\
    lfloor\xe2\x8c\x8a\
    lfr\xf0\x9d\x94\xa9\
    lg\xe2\x89\xb6\
    lgE\xe2\xaa\x91\
    lhard\xe2\x86\xbd\
    lharu\xe2\x86\xbc\
    lharul\xe2\xa5\xaa\
    lhblk\xe2\x96\x84\
    ljcy\xd1\x99\
    ll\xe2\x89\xaa\
    llarr\xe2\x87\x87\
    llcorner\xe2\x8c\x9e\
    llhard\xe2\xa5\xab\
    lltri\xe2\x97\xba\
    lmidot\xc5\x80\
    lmoust\xe2\x8e\xb0\
    lmoustache\xe2\x8e\xb0\
    lnE\xe2\x89\xa8\
    lnap\xe2\xaa\x89\
    lnapprox\xe2\xaa\x89\
    lne\xe2\xaa\x87\
    lneq\xe2\xaa\x87\
    lneqq\xe2\x89\xa8\
    lnsim\xe2\x8b\xa6\
    loang\xe2\x9f\xac\
    loarr\xe2\x87\xbd\
    lobrk\xe2\x9f\xa6\
    longleftarrow\xe2\x9f\xb5\
    longleftrightarrow\xe2\x9f\xb7\
    longmapsto\xe2\x9f\xbc\
    longrightarrow\xe2\x9f\xb6\
    looparrowleft\xe2\x86\xab\
    looparrowright\xe2\x86\xac\
    lopar\xe2\xa6\x85\
    lopf\xf0\x9d\x95\x9d\
    loplus\xe2\xa8\xad\
    lotimes\xe2\xa8\xb4\
    lowast\xe2\x88\x97\
    lowbar_\
    loz\xe2\x97\x8a\
    lozenge\xe2\x97\x8a\
    lozf\xe2\xa7\xab\
    lpar(\
    lparlt\xe2\xa6\x93\
    lrarr\xe2\x87\x86\
    lrcorner\xe2\x8c\x9f\
    lrhar\xe2\x87\x8b\
    lrhard\xe2\xa5\xad\
    lrm\xe2\x80\x8e\
    lrtri\xe2\x8a\xbf\
    lsaquo\xe2\x80\xb9\
    lscr\xf0\x9d\x93\x81\
    lsh\xe2\x86\xb0\
    lsim\xe2\x89\xb2\
    lsime\xe2\xaa\x8d\
    lsimg\xe2\xaa\x8f\
    lsqb[\
    lsquo\xe2\x80\x98\
    lsquor\xe2\x80\x9a\
    lstrok\xc5\x82\
    lt<\
    ltcc\xe2\xaa\xa6\
    ltcir\xe2\xa9\xb9\
    ltdot\xe2\x8b\x96\
    lthree\xe2\x8b\x8b\
    ltimes\xe2\x8b\x89\
    ltlarr\xe2\xa5\xb6\
    ltquest\xe2\xa9\xbb\
    ltrPar\xe2\xa6\x96\
    ltri\xe2\x97\x83\
    ltrie\xe2\x8a\xb4\
    ltrif\xe2\x97\x82\
    lurdshar\xe2\xa5\x8a\
    luruhar\xe2\xa5\xa6\
    lvertneqq\xe2\x89\xa8\xef\xb8\x80\
    lvnE\xe2\x89\xa8\xef\xb8\x80\
    mDDot\xe2\x88\xba\
    macr\xc2\xaf\
    male\xe2\x99\x82\
    malt\xe2\x9c\xa0\
    maltese\xe2\x9c\xa0\
    map\xe2\x86\xa6\
    mapsto\xe2\x86\xa6\
    mapstodown\xe2\x86\xa7\
    mapstoleft\xe2\x86\xa4\
    mapstoup\xe2\x86\xa5\
    marker\xe2\x96\xae\
    mcomma\xe2\xa8\xa9\
    mcy\xd0\xbc\
    mdash\xe2\x80\x94\
    measuredangle\xe2\x88\xa1\
    mfr\xf0\x9d\x94\xaa\
    mho\xe2\x84\xa7\
    micro\xc2\xb5\
    mid\xe2\x88\xa3\
    midast*\
    midcir\xe2\xab\xb0\
    middot\xc2\xb7\
    minus\xe2\x88\x92\
    minusb\xe2\x8a\x9f\
    minusd\xe2\x88\xb8\
    minusdu\xe2\xa8\xaa\
    mlcp\xe2\xab\x9b\
    mldr\xe2\x80\xa6\
    mnplus\xe2\x88\x93\
    models\xe2\x8a\xa7\
    mopf\xf0\x9d\x95\x9e\
    mp\xe2\x88\x93\
    mscr\xf0\x9d\x93\x82\
    mstpos\xe2\x88\xbe\
    mu\xce\xbc\
    multimap\xe2\x8a\xb8\
    mumap\xe2\x8a\xb8\
    nGg\xe2\x8b\x99\xcc\xb8\
    nGt\xe2\x89\xab\xe2\x83\x92\
    nGtv\xe2\x89\xab\xcc\xb8\
    nLeftarrow\xe2\x87\x8d\
    nLeftrightarrow\xe2\x87\x8e\
    nLl\xe2\x8b\x98\xcc\xb8\
    nLt\xe2\x89\xaa\xe2\x83\x92\
    nLtv\xe2\x89\xaa\xcc\xb8\
    nRightarrow\xe2\x87\x8f\
    nVDash\xe2\x8a\xaf\
    nVdash\xe2\x8a\xae\
    nabla\xe2\x88\x87\
    nacute\xc5\x84\
    nang\xe2\x88\xa0\xe2\x83\x92\
    nap\xe2\x89\x89\
    napE\xe2\xa9\xb0\xcc\xb8\
    napid\xe2\x89\x8b\xcc\xb8\
    napos\xc5\x89\
    napprox\xe2\x89\x89\
    natur\xe2\x99\xae\
    natural\xe2\x99\xae\
    naturals\xe2\x84\x95\
    nbsp\xc2\xa0\
    nbump\xe2\x89\x8e\xcc\xb8\
    nbumpe\xe2\x89\x8f\xcc\xb8\
    ncap\xe2\xa9\x83\
    ncaron\xc5\x88\
    ncedil\xc5\x86\
    ncong\xe2\x89\x87\
    ncongdot\xe2\xa9\xad\xcc\xb8\
    ncup\xe2\xa9\x82\
    ncy\xd0\xbd\
    ndash\xe2\x80\x93\
    ne\xe2\x89\xa0\
    neArr\xe2\x87\x97\
    nearhk\xe2\xa4\xa4\
    nearr\xe2\x86\x97\
    nearrow\xe2\x86\x97\
    nedot\xe2\x89\x90\xcc\xb8\
    nequiv\xe2\x89\xa2\
    nesear\xe2\xa4\xa8\
    nesim\xe2\x89\x82\xcc\xb8\
    nexist\xe2\x88\x84\
    nexists\xe2\x88\x84\
    nfr\xf0\x9d\x94\xab\
    ngE\xe2\x89\xa7\xcc\xb8\
    nge\xe2\x89\xb1\
    ngeq\xe2\x89\xb1\
    ngeqq\xe2\x89\xa7\xcc\xb8\
    ngeqslant\xe2\xa9\xbe\xcc\xb8\
    nges\xe2\xa9\xbe\xcc\xb8\
    ngsim\xe2\x89\xb5\
    ngt\xe2\x89\xaf\
    ngtr\xe2\x89\xaf\
    nhArr\xe2\x87\x8e\
    nharr\xe2\x86\xae\
    nhpar\xe2\xab\xb2\
    ni\xe2\x88\x8b\
    nis\xe2\x8b\xbc\
    nisd\xe2\x8b\xba\
    niv\xe2\x88\x8b\
    njcy\xd1\x9a\
    nlArr\xe2\x87\x8d\
    nlE\xe2\x89\xa6\xcc\xb8\
    nlarr\xe2\x86\x9a\
    nldr\xe2\x80\xa5\
    nle\xe2\x89\xb0\
    nleftarrow\xe2\x86\x9a\
    nleftrightarrow\xe2\x86\xae\
    nleq\xe2\x89\xb0\
    nleqq\xe2\x89\xa6\xcc\xb8\
    nleqslant\xe2\xa9\xbd\xcc\xb8\
    nles\xe2\xa9\xbd\xcc\xb8\
    nless\xe2\x89\xae\
    nlsim\xe2\x89\xb4\
    nlt\xe2\x89\xae\
    nltri\xe2\x8b\xaa\
    nltrie\xe2\x8b\xac\
    nmid\xe2\x88\xa4\
    nopf\xf0\x9d\x95\x9f\
    not\xc2\xac\
    notin\xe2\x88\x89\
    notinE\xe2\x8b\xb9\xcc\xb8\
    notindot\xe2\x8b\xb5\xcc\xb8\
    notinva\xe2\x88\x89\
    notinvb\xe2\x8b\xb7\
    notinvc\xe2\x8b\xb6\
    notni\xe2\x88\x8c\
    notniva\xe2\x88\x8c\
    notnivb\xe2\x8b\xbe\
    notnivc\xe2\x8b\xbd\
    npar\xe2\x88\xa6\
    nparallel\xe2\x88\xa6\
    nparsl\xe2\xab\xbd\xe2\x83\xa5\
    npart\xe2\x88\x82\xcc\xb8\
    npolint\xe2\xa8\x94\
    npr\xe2\x8a\x80\
    nprcue\xe2\x8b\xa0\
    npre\xe2\xaa\xaf\xcc\xb8\
    nprec\xe2\x8a\x80\
    npreceq\xe2\xaa\xaf\xcc\xb8\
    nrArr\xe2\x87\x8f\
    nrarr\xe2\x86\x9b\
    nrarrc\xe2\xa4\xb3\xcc\xb8\
    nrarrw\xe2\x86\x9d\xcc\xb8\
    nrightarrow\xe2\x86\x9b\
    nrtri\xe2\x8b\xab\
    nrtrie\xe2\x8b\xad\
    nsc\xe2\x8a\x81\
    nsccue\xe2\x8b\xa1\
    nsce\xe2\xaa\xb0\xcc\xb8\
    nscr\xf0\x9d\x93\x83\
    nshortmid\xe2\x88\xa4\
    nshortparallel\xe2\x88\xa6\
    nsim\xe2\x89\x81\
    nsime\xe2\x89\x84\
    nsimeq\xe2\x89\x84\
    nsmid\xe2\x88\xa4\
    nspar\xe2\x88\xa6\
    nsqsube\xe2\x8b\xa2\
    nsqsupe\xe2\x8b\xa3\
    nsub\xe2\x8a\x84\
    nsubE\xe2\xab\x85\xcc\xb8\
    nsube\xe2\x8a\x88\
    nsubset\xe2\x8a\x82\xe2\x83\x92\
    nsubseteq\xe2\x8a\x88\
    nsubseteqq\xe2\xab\x85\xcc\xb8\
    nsucc\xe2\x8a\x81\
    nsucceq\xe2\xaa\xb0\xcc\xb8\
    nsup\xe2\x8a\x85\
    nsupE\xe2\xab\x86\xcc\xb8\
    nsupe\xe2\x8a\x89\
    nsupset\xe2\x8a\x83\xe2\x83\x92\
    nsupseteq\xe2\x8a\x89\
    nsupseteqq\xe2\xab\x86\xcc\xb8\
    ntgl\xe2\x89\xb9\
    ntilde\xc3\xb1\
    ntlg\xe2\x89\xb8\
    ntriangleleft\xe2\x8b\xaa\
    ntrianglelefteq\xe2\x8b\xac\
    ntriangleright\xe2\x8b\xab\
    ntrianglerighteq\xe2\x8b\xad\
    nu\xce\xbd\
    num#\
    numero\xe2\x84\x96\
    numsp\xe2\x80\x87\
    nvDash\xe2\x8a\xad\
    nvHarr\xe2\xa4\x84\
    nvap\xe2\x89\x8d\xe2\x83\x92\
    nvdash\xe2\x8a\xac\
    nvge\xe2\x89\xa5\xe2\x83\x92\
    nvgt>\xe2\x83\x92\
    nvinfin\xe2\xa7\x9e\
    nvlArr\xe2\xa4\x82\
    nvle\xe2\x89\xa4\xe2\x83\x92\
    nvlt<\xe2\x83\x92\
    nvltrie\xe2\x8a\xb4\xe2\x83\x92\
    nvrArr\xe2\xa4\x83\
    nvrtrie\xe2\x8a\xb5\xe2\x83\x92\
    nvsim\xe2\x88\xbc\xe2\x83\x92\
    nwArr\xe2\x87\x96\
    nwarhk\xe2\xa4\xa3\
    nwarr\xe2\x86\x96\
    nwarrow\xe2\x86\x96\
    nwnear\xe2\xa4\xa7\
    oS\xe2\x93\x88\
    oacute\xc3\xb3\
    oast\xe2\x8a\x9b\
    ocir\xe2\x8a\x9a\
    ocirc\xc3\xb4\
    ocy\xd0\xbe\
    odash\xe2\x8a\x9d\
    odblac\xc5\x91\
    odiv\xe2\xa8\xb8\
    odot\xe2\x8a\x99\
    odsold\xe2\xa6\xbc\
    oelig\xc5\x93\
    ofcir\xe2\xa6\xbf\
    ofr\xf0\x9d\x94\xac\
    ogon\xcb\x9b\
    ograve\xc3\xb2\
    ogt\xe2\xa7\x81\
    ohbar\xe2\xa6\xb5\
    ohm\xce\xa9\
    oint\xe2\x88\xae\
    olarr\xe2\x86\xba\
    olcir\xe2\xa6\xbe\
    olcross\xe2\xa6\xbb\
    oline\xe2\x80\xbe\
    olt\xe2\xa7\x80\
    omacr\xc5\x8d\
    omega\xcf\x89\
    omicron\xce\xbf\
    omid\xe2\xa6\xb6\
    ominus\xe2\x8a\x96\
    oopf\xf0\x9d\x95\xa0\
    opar\xe2\xa6\xb7\
    operp\xe2\xa6\xb9\
    oplus\xe2\x8a\x95\
    or\xe2\x88\xa8\
    orarr\xe2\x86\xbb\
    ord\xe2\xa9\x9d\
    order\xe2\x84\xb4\
    orderof\xe2\x84\xb4\
    ordf\xc2\xaa\
    ordm\xc2\xba\
    origof\xe2\x8a\xb6\
    oror\xe2\xa9\x96\
    orslope\xe2\xa9\x97\
    orv\xe2\xa9\x9b\
    oscr\xe2\x84\xb4\
    oslash\xc3\xb8\
    osol\xe2\x8a\x98\
    otilde\xc3\xb5\
    otimes\xe2\x8a\x97\
    otimesas\xe2\xa8\xb6\
    ouml\xc3\xb6\
    ovbar\xe2\x8c\xbd\
    par\xe2\x88\xa5\
    para\xc2\xb6\
    parallel\xe2\x88\xa5\
    parsim\xe2\xab\xb3\
    parsl\xe2\xab\xbd\
    part\xe2\x88\x82\
    pcy\xd0\xbf\
    percnt%\
    period.\
    permil\xe2\x80\xb0\
    perp\xe2\x8a\xa5\
    pertenk\xe2\x80\xb1\
    pfr\xf0\x9d\x94\xad\
    phi\xcf\x86\
    phiv\xcf\x95\
    phmmat\xe2\x84\xb3\
    phone\xe2\x98\x8e\
    pi\xcf\x80\
    pitchfork\xe2\x8b\x94\
    piv\xcf\x96\
    planck\xe2\x84\x8f\
    planckh\xe2\x84\x8e\
    plankv\xe2\x84\x8f\
    plus+\
    plusacir\xe2\xa8\xa3\
    plusb\xe2\x8a\x9e\
    pluscir\xe2\xa8\xa2\
    plusdo\xe2\x88\x94\
    plusdu\xe2\xa8\xa5\
    pluse\xe2\xa9\xb2\
    plusmn\xc2\xb1\
    plussim\xe2\xa8\xa6\
    plustwo\xe2\xa8\xa7\
    pm\xc2\xb1\
    pointint\xe2\xa8\x95\
    popf\xf0\x9d\x95\xa1\
    pound\xc2\xa3\
    pr\xe2\x89\xba\
    prE\xe2\xaa\xb3\
    prap\xe2\xaa\xb7\
    prcue\xe2\x89\xbc\
    pre\xe2\xaa\xaf\
    prec\xe2\x89\xba\
    precapprox\xe2\xaa\xb7\
    preccurlyeq\xe2\x89\xbc\
    preceq\xe2\xaa\xaf\
    precnapprox\xe2\xaa\xb9\
    precneqq\xe2\xaa\xb5\
    precnsim\xe2\x8b\xa8\
    precsim\xe2\x89\xbe\
    prime\xe2\x80\xb2\
    primes\xe2\x84\x99\
    prnE\xe2\xaa\xb5\
    prnap\xe2\xaa\xb9\
    prnsim\xe2\x8b\xa8\
    prod\xe2\x88\x8f\
    profalar\xe2\x8c\xae\
    profline\xe2\x8c\x92\
    profsurf\xe2\x8c\x93\
    prop\xe2\x88\x9d\
    propto\xe2\x88\x9d\
    prsim\xe2\x89\xbe\
    prurel\xe2\x8a\xb0\
    pscr\xf0\x9d\x93\x85\
    psi\xcf\x88\
    puncsp\xe2\x80\x88\
    qfr\xf0\x9d\x94\xae\
    qint\xe2\xa8\x8c\
    qopf\xf0\x9d\x95\xa2\
    qprime\xe2\x81\x97\
    qscr\xf0\x9d\x93\x86\
    quaternions\xe2\x84\x8d\
    quatint\xe2\xa8\x96\
    quest?\
    questeq\xe2\x89\x9f\
    quot\"\
    rAarr\xe2\x87\x9b\
    rArr\xe2\x87\x92\
    rAtail\xe2\xa4\x9c\
    rBarr\xe2\xa4\x8f\
    rHar\xe2\xa5\xa4\
    race\xe2\x88\xbd\xcc\xb1\
    racute\xc5\x95\
    radic\xe2\x88\x9a\
    raemptyv\xe2\xa6\xb3\
    rang\xe2\x9f\xa9\
    rangd\xe2\xa6\x92\
    range\xe2\xa6\xa5\
    rangle\xe2\x9f\xa9\
    raquo\xc2\xbb\
    rarr\xe2\x86\x92\
    rarrap\xe2\xa5\xb5\
    rarrb\xe2\x87\xa5\
    rarrbfs\xe2\xa4\xa0\
    rarrc\xe2\xa4\xb3\
    rarrfs\xe2\xa4\x9e\
    rarrhk\xe2\x86\xaa\
    rarrlp\xe2\x86\xac\
    rarrpl\xe2\xa5\x85\
    rarrsim\xe2\xa5\xb4\
    rarrtl\xe2\x86\xa3\
    rarrw\xe2\x86\x9d\
    ratail\xe2\xa4\x9a\
    ratio\xe2\x88\xb6\
    rationals\xe2\x84\x9a\
    rbarr\xe2\xa4\x8d\
    rbbrk\xe2\x9d\xb3\
    rbrace}\
    rbrack]\
    rbrke\xe2\xa6\x8c\
    rbrksld\xe2\xa6\x8e\
    rbrkslu\xe2\xa6\x90\
    rcaron\xc5\x99\
    rcedil\xc5\x97\
    rceil\xe2\x8c\x89\
    rcub}\
    rcy\xd1\x80\
    rdca\xe2\xa4\xb7\
    rdldhar\xe2\xa5\xa9\
    rdquo\xe2\x80\x9d\
    rdquor\xe2\x80\x9d\
    rdsh\xe2\x86\xb3\
    real\xe2\x84\x9c\
    realine\xe2\x84\x9b\
    realpart\xe2\x84\x9c\
    reals\xe2\x84\x9d\
    rect\xe2\x96\xad\
    reg\xc2\xae\
    rfisht\xe2\xa5\xbd\
    rfloor\xe2\x8c\x8b\
    rfr\xf0\x9d\x94\xaf\
    rhard\xe2\x87\x81\
    rharu\xe2\x87\x80\
    rharul\xe2\xa5\xac\
    rho\xcf\x81\
    rhov\xcf\xb1\
    rightarrow\xe2\x86\x92\
    rightarrowtail\xe2\x86\xa3\
    rightharpoondown\xe2\x87\x81\
    rightharpoonup\xe2\x87\x80\
    rightleftarrows\xe2\x87\x84\
    rightleftharpoons\xe2\x87\x8c\
    rightrightarrows\xe2\x87\x89\
    rightsquigarrow\xe2\x86\x9d\
    rightthreetimes\xe2\x8b\x8c\
    ring\xcb\x9a\
    risingdotseq\xe2\x89\x93\
    rlarr\xe2\x87\x84\
    rlhar\xe2\x87\x8c\
    rlm\xe2\x80\x8f\
    rmoust\xe2\x8e\xb1\
    rmoustache\xe2\x8e\xb1\
    rnmid\xe2\xab\xae\
    roang\xe2\x9f\xad\
    roarr\xe2\x87\xbe\
    robrk\xe2\x9f\xa7\
    ropar\xe2\xa6\x86\
    ropf\xf0\x9d\x95\xa3\
    roplus\xe2\xa8\xae\
    rotimes\xe2\xa8\xb5\
    rpar)\
    rpargt\xe2\xa6\x94\
    rppolint\xe2\xa8\x92\
    rrarr\xe2\x87\x89\
    rsaquo\xe2\x80\xba\
    rscr\xf0\x9d\x93\x87\
    rsh\xe2\x86\xb1\
    rsqb]\
    rsquo\xe2\x80\x99\
    rsquor\xe2\x80\x99\
    rthree\xe2\x8b\x8c\
    rtimes\xe2\x8b\x8a\
    rtri\xe2\x96\xb9\
    rtrie\xe2\x8a\xb5\
    rtrif\xe2\x96\xb8\
    rtriltri\xe2\xa7\x8e\
    ruluhar\xe2\xa5\xa8\
    rx\xe2\x84\x9e\
    sacute\xc5\x9b\
    sbquo\xe2\x80\x9a\
    sc\xe2\x89\xbb\
    scE\xe2\xaa\xb4\
    scap\xe2\xaa\xb8\
    scaron\xc5\xa1\
    sccue\xe2\x89\xbd\
    sce\xe2\xaa\xb0\
    scedil\xc5\x9f\
    scirc\xc5\x9d\
    scnE\xe2\xaa\xb6\
    scnap\xe2\xaa\xba\
    scnsim\xe2\x8b\xa9\
    scpolint\xe2\xa8\x93\
    scsim\xe2\x89\xbf\
    scy\xd1\x81\
    sdot\xe2\x8b\x85\
    sdotb\xe2\x8a\xa1\
    sdote\xe2\xa9\xa6\
    seArr\xe2\x87\x98\
    searhk\xe2\xa4\xa5\
    searr\xe2\x86\x98\
    searrow\xe2\x86\x98\
    sect\xc2\xa7\
    semi;\
    seswar\xe2\xa4\xa9\
    setminus\xe2\x88\x96\
    setmn\xe2\x88\x96\
    sext\xe2\x9c\xb6\
    sfr\xf0\x9d\x94\xb0\
    sfrown\xe2\x8c\xa2\
    sharp\xe2\x99\xaf\
    shchcy\xd1\x89\
    shcy\xd1\x88\
    shortmid\xe2\x88\xa3\
    shortparallel\xe2\x88\xa5\
    shy\xc2\xad\
    sigma\xcf\x83\
    sigmaf\xcf\x82\
    sigmav\xcf\x82\
    sim\xe2\x88\xbc\
    simdot\xe2\xa9\xaa\
    sime\xe2\x89\x83\
    simeq\xe2\x89\x83\
    simg\xe2\xaa\x9e\
    simgE\xe2\xaa\xa0\
    siml\xe2\xaa\x9d\
    simlE\xe2\xaa\x9f\
    simne\xe2\x89\x86\
    simplus\xe2\xa8\xa4\
    simrarr\xe2\xa5\xb2\
    slarr\xe2\x86\x90\
    smallsetminus\xe2\x88\x96\
    smashp\xe2\xa8\xb3\
    smeparsl\xe2\xa7\xa4\
    smid\xe2\x88\xa3\
    smile\xe2\x8c\xa3\
    smt\xe2\xaa\xaa\
    smte\xe2\xaa\xac\
    smtes\xe2\xaa\xac\xef\xb8\x80\
    softcy\xd1\x8c\
    sol/\
    solb\xe2\xa7\x84\
    solbar\xe2\x8c\xbf\
    sopf\xf0\x9d\x95\xa4\
    spades\xe2\x99\xa0\
    spadesuit\xe2\x99\xa0\
    spar\xe2\x88\xa5\
    sqcap\xe2\x8a\x93\
    sqcaps\xe2\x8a\x93\xef\xb8\x80\
    sqcup\xe2\x8a\x94\
    sqcups\xe2\x8a\x94\xef\xb8\x80\
    sqsub\xe2\x8a\x8f\
    sqsube\xe2\x8a\x91\
    sqsubset\xe2\x8a\x8f\
    sqsubseteq\xe2\x8a\x91\
    sqsup\xe2\x8a\x90\
    sqsupe\xe2\x8a\x92\
    sqsupset\xe2\x8a\x90\
    sqsupseteq\xe2\x8a\x92\
    squ\xe2\x96\xa1\
    square\xe2\x96\xa1\
    squarf\xe2\x96\xaa\
    squf\xe2\x96\xaa\
    srarr\xe2\x86\x92\
    sscr\xf0\x9d\x93\x88\
    ssetmn\xe2\x88\x96\
    ssmile\xe2\x8c\xa3\
    sstarf\xe2\x8b\x86\
    star\xe2\x98\x86\
    starf\xe2\x98\x85\
    straightepsilon\xcf\xb5\
    straightphi\xcf\x95\
    strns\xc2\xaf\
    sub\xe2\x8a\x82\
    subE\xe2\xab\x85\
    subdot\xe2\xaa\xbd\
    sube\xe2\x8a\x86\
    subedot\xe2\xab\x83\
    submult\xe2\xab\x81\
    subnE\xe2\xab\x8b\
    subne\xe2\x8a\x8a\
    subplus\xe2\xaa\xbf\
    subrarr\xe2\xa5\xb9\
    subset\xe2\x8a\x82\
    subseteq\xe2\x8a\x86\
    subseteqq\xe2\xab\x85\
    subsetneq\xe2\x8a\x8a\
    subsetneqq\xe2\xab\x8b\
    subsim\xe2\xab\x87\
    subsub\xe2\xab\x95\
    subsup\xe2\xab\x93\
    succ\xe2\x89\xbb\
    succapprox\xe2\xaa\xb8\
    succcurlyeq\xe2\x89\xbd\
    succeq\xe2\xaa\xb0\
    succnapprox\xe2\xaa\xba\
    succneqq\xe2\xaa\xb6\
    succnsim\xe2\x8b\xa9\
    succsim\xe2\x89\xbf\
    sum\xe2\x88\x91\
    sung\xe2\x99\xaa\
    sup\xe2\x8a\x83\
    sup1\xc2\xb9\
    sup2\xc2\xb2\
    sup3\xc2\xb3\
    supE\xe2\xab\x86\
    supdot\xe2\xaa\xbe\
    supdsub\xe2\xab\x98\
    supe\xe2\x8a\x87\
    supedot\xe2\xab\x84\
    suphsol\xe2\x9f\x89\
    suphsub\xe2\xab\x97\
    suplarr\xe2\xa5\xbb\
    supmult\xe2\xab\x82\
    supnE\xe2\xab\x8c\
    supne\xe2\x8a\x8b\
    supplus\xe2\xab\x80\
    supset\xe2\x8a\x83\
    supseteq\xe2\x8a\x87\
    supseteqq\xe2\xab\x86\
    supsetneq\xe2\x8a\x8b\
    supsetneqq\xe2\xab\x8c\
    supsim\xe2\xab\x88\
    supsub\xe2\xab\x94\
    supsup\xe2\xab\x96\
    swArr\xe2\x87\x99\
    swarhk\xe2\xa4\xa6\
    swarr\xe2\x86\x99\
    swarrow\xe2\x86\x99\
    swnwar\xe2\xa4\xaa\
    szlig\xc3\x9f\
    target\xe2\x8c\x96\
    tau\xcf\x84\
    tbrk\xe2\x8e\xb4\
    tcaron\xc5\xa5\
    tcedil\xc5\xa3\
    tcy\xd1\x82\
    tdot\xe2\x83\x9b\
    telrec\xe2\x8c\x95\
    tfr\xf0\x9d\x94\xb1\
    there4\xe2\x88\xb4\
    therefore\xe2\x88\xb4\
    theta\xce\xb8\
    thetasym\xcf\x91\
    thetav\xcf\x91\
    thickapprox\xe2\x89\x88\
    thicksim\xe2\x88\xbc\
    thinsp\xe2\x80\x89\
    thkap\xe2\x89\x88\
    thksim\xe2\x88\xbc\
    thorn\xc3\xbe\
    tilde\xcb\x9c\
    times\xc3\x97\
    timesb\xe2\x8a\xa0\
    timesbar\xe2\xa8\xb1\
    timesd\xe2\xa8\xb0\
    tint\xe2\x88\xad\
    toea\xe2\xa4\xa8\
    top\xe2\x8a\xa4\
    topbot\xe2\x8c\xb6\
    topcir\xe2\xab\xb1\
    topf\xf0\x9d\x95\xa5\
    topfork\xe2\xab\x9a\
    tosa\xe2\xa4\xa9\
    tprime\xe2\x80\xb4\
    trade\xe2\x84\xa2\
    triangle\xe2\x96\xb5\
    triangledown\xe2\x96\xbf\
    triangleleft\xe2\x97\x83\
    trianglelefteq\xe2\x8a\xb4\
    triangleq\xe2\x89\x9c\
    triangleright\xe2\x96\xb9\
    trianglerighteq\xe2\x8a\xb5\
    tridot\xe2\x97\xac\
    trie\xe2\x89\x9c\
    triminus\xe2\xa8\xba\
    triplus\xe2\xa8\xb9\
    trisb\xe2\xa7\x8d\
    tritime\xe2\xa8\xbb\
    trpezium\xe2\x8f\xa2\
    tscr\xf0\x9d\x93\x89\
    tscy\xd1\x86\
    tshcy\xd1\x9b\
    tstrok\xc5\xa7\
    twixt\xe2\x89\xac\
    twoheadleftarrow\xe2\x86\x9e\
    twoheadrightarrow\xe2\x86\xa0\
    uArr\xe2\x87\x91\
    uHar\xe2\xa5\xa3\
    uacute\xc3\xba\
    uarr\xe2\x86\x91\
    ubrcy\xd1\x9e\
    ubreve\xc5\xad\
    ucirc\xc3\xbb\
    ucy\xd1\x83\
    udarr\xe2\x87\x85\
    udblac\xc5\xb1\
    udhar\xe2\xa5\xae\
    ufisht\xe2\xa5\xbe\
    ufr\xf0\x9d\x94\xb2\
    ugrave\xc3\xb9\
    uharl\xe2\x86\xbf\
    uharr\xe2\x86\xbe\
    uhblk\xe2\x96\x80\
    ulcorn\xe2\x8c\x9c\
    ulcorner\xe2\x8c\x9c\
    ulcrop\xe2\x8c\x8f\
    ultri\xe2\x97\xb8\
    umacr\xc5\xab\
    uml\xc2\xa8\
    uogon\xc5\xb3\
    uopf\xf0\x9d\x95\xa6\
    uparrow\xe2\x86\x91\
    updownarrow\xe2\x86\x95\
    upharpoonleft\xe2\x86\xbf\
    upharpoonright\xe2\x86\xbe\
    uplus\xe2\x8a\x8e\
    upsi\xcf\x85\
    upsih\xcf\x92\
    upsilon\xcf\x85\
    upuparrows\xe2\x87\x88\
    urcorn\xe2\x8c\x9d\
    urcorner\xe2\x8c\x9d\
    urcrop\xe2\x8c\x8e\
    uring\xc5\xaf\
    urtri\xe2\x97\xb9\
    uscr\xf0\x9d\x93\x8a\
    utdot\xe2\x8b\xb0\
    utilde\xc5\xa9\
    utri\xe2\x96\xb5\
    utrif\xe2\x96\xb4\
    uuarr\xe2\x87\x88\
    uuml\xc3\xbc\
    uwangle\xe2\xa6\xa7\
    vArr\xe2\x87\x95\
    vBar\xe2\xab\xa8\
    vBarv\xe2\xab\xa9\
    vDash\xe2\x8a\xa8\
    vangrt\xe2\xa6\x9c\
    varepsilon\xcf\xb5\
    varkappa\xcf\xb0\
    varnothing\xe2\x88\x85\
    varphi\xcf\x95\
    varpi\xcf\x96\
    varpropto\xe2\x88\x9d\
    varr\xe2\x86\x95\
    varrho\xcf\xb1\
    varsigma\xcf\x82\
    varsubsetneq\xe2\x8a\x8a\xef\xb8\x80\
    varsubsetneqq\xe2\xab\x8b\xef\xb8\x80\
    varsupsetneq\xe2\x8a\x8b\xef\xb8\x80\
    varsupsetneqq\xe2\xab\x8c\xef\xb8\x80\
    vartheta\xcf\x91\
    vartriangleleft\xe2\x8a\xb2\
    vartriangleright\xe2\x8a\xb3\
    vcy\xd0\xb2\
    vdash\xe2\x8a\xa2\
    vee\xe2\x88\xa8\
    veebar\xe2\x8a\xbb\
    veeeq\xe2\x89\x9a\
    vellip\xe2\x8b\xae\
    verbar|\
    vert|\
    vfr\xf0\x9d\x94\xb3\
    vltri\xe2\x8a\xb2\
    vnsub\xe2\x8a\x82\xe2\x83\x92\
    vnsup\xe2\x8a\x83\xe2\x83\x92\
    vopf\xf0\x9d\x95\xa7\
    vprop\xe2\x88\x9d\
    vrtri\xe2\x8a\xb3\
    vscr\xf0\x9d\x93\x8b\
    vsubnE\xe2\xab\x8b\xef\xb8\x80\
    vsubne\xe2\x8a\x8a\xef\xb8\x80\
    vsupnE\xe2\xab\x8c\xef\xb8\x80\
    vsupne\xe2\x8a\x8b\xef\xb8\x80\
    vzigzag\xe2\xa6\x9a\
    wcirc\xc5\xb5\
    wedbar\xe2\xa9\x9f\
    wedge\xe2\x88\xa7\
    wedgeq\xe2\x89\x99\
    weierp\xe2\x84\x98\
    wfr\xf0\x9d\x94\xb4\
    wopf\xf0\x9d\x95\xa8\
    wp\xe2\x84\x98\
    wr\xe2\x89\x80\
    wreath\xe2\x89\x80\
    wscr\xf0\x9d\x93\x8c\
    xcap\xe2\x8b\x82\
    xcirc\xe2\x97\xaf\
    xcup\xe2\x8b\x83\
    xdtri\xe2\x96\xbd\
    xfr\xf0\x9d\x94\xb5\
    xhArr\xe2\x9f\xba\
    xharr\xe2\x9f\xb7\
    xi\xce\xbe\
    xlArr\xe2\x9f\xb8\
    xlarr\xe2\x9f\xb5\
    xmap\xe2\x9f\xbc\
    xnis\xe2\x8b\xbb\
    xodot\xe2\xa8\x80\
    xopf\xf0\x9d\x95\xa9\
    xoplus\xe2\xa8\x81\
    xotime\xe2\xa8\x82\
    xrArr\xe2\x9f\xb9\
    xrarr\xe2\x9f\xb6\
    xscr\xf0\x9d\x93\x8d\
    xsqcup\xe2\xa8\x86\
    xuplus\xe2\xa8\x84\
    xutri\xe2\x96\xb3\
    xvee\xe2\x8b\x81\
    xwedge\xe2\x8b\x80\
    yacute\xc3\xbd\
    yacy\xd1\x8f\
    ycirc\xc5\xb7\
    ycy\xd1\x8b\
    yen\xc2\xa5\
    yfr\xf0\x9d\x94\xb6\
    yicy\xd1\x97\
    yopf\xf0\x9d\x95\xaa\
    yscr\xf0\x9d\x93\x8e\
    yucy\xd1\x8e\
    yuml\xc3\xbf\
    zacute\xc5\xba\
    zcaron\xc5\xbe\
    zcy\xd0\xb7\
    zdot\xc5\xbc\
    zeetrf\xe2\x84\xa8\
    zeta\xce\xb6\
    zfr\xf0\x9d\x94\xb7\
    zhcy\xd0\xb6\
    zigrarr\xe2\x87\x9d\
    zopf\xf0\x9d\x95\xab\
    zscr\xf0\x9d\x93\x8f\
    zwj\xe2\x80\x8d\
    zwnj\xe2\x80\x8c";

/// Where each name begins, and the lengths of the name and of its text. The names ascend.
#[rattlefmt::skip]
pub static ROWS: [(u16, u8, u8); 2125] = [
    (0, 5, 2),
    (7, 3, 1),
    (11, 6, 2),
    (19, 6, 2),
    (27, 5, 2),
    (34, 3, 2),
    (39, 3, 4),
    (46, 6, 2),
    (54, 5, 2),
    (61, 5, 2),
    (68, 3, 3),
    (74, 5, 2),
    (81, 4, 4),
    (89, 13, 3),
    (105, 5, 2),
    (112, 4, 4),
    (120, 6, 3),
    (129, 6, 2),
    (137, 4, 2),
    (143, 9, 3),
    (155, 4, 3),
    (162, 6, 3),
    (171, 3, 2),
    (176, 7, 3),
    (186, 10, 3),
    (199, 4, 2),
    (205, 3, 4),
    (212, 4, 4),
    (220, 5, 2),
    (227, 4, 3),
    (234, 6, 3),
    (243, 4, 2),
    (249, 4, 2),
    (255, 6, 2),
    (263, 3, 3),
    (269, 20, 3),
    (292, 7, 3),
    (302, 6, 2),
    (310, 6, 2),
    (318, 5, 2),
    (325, 7, 3),
    (335, 4, 2),
    (341, 7, 2),
    (350, 9, 2),
    (361, 3, 3),
    (367, 3, 2),
    (372, 9, 3),
    (384, 11, 3),
    (398, 10, 3),
    (411, 11, 3),
    (425, 24, 3),
    (452, 21, 3),
    (476, 15, 3),
    (494, 5, 3),
    (502, 6, 3),
    (511, 9, 3),
    (523, 6, 3),
    (532, 15, 3),
    (550, 4, 3),
    (557, 9, 3),
    (569, 31, 3),
    (603, 5, 3),
    (611, 4, 4),
    (619, 3, 3),
    (625, 6, 3),
    (634, 2, 3),
    (639, 8, 3),
    (650, 4, 2),
    (656, 4, 2),
    (662, 4, 2),
    (668, 6, 3),
    (677, 4, 3),
    (684, 5, 3),
    (692, 6, 2),
    (700, 3, 2),
    (705, 3, 3),
    (711, 5, 2),
    (718, 3, 4),
    (725, 16, 2),
    (743, 14, 2),
    (759, 22, 2),
    (783, 16, 1),
    (800, 16, 2),
    (818, 7, 3),
    (828, 13, 3),
    (844, 4, 4),
    (852, 3, 2),
    (857, 6, 3),
    (866, 8, 3),
    (877, 21, 3),
    (901, 9, 2),
    (912, 15, 3),
    (930, 15, 3),
    (948, 20, 3),
    (971, 13, 3),
    (987, 19, 3),
    (1009, 24, 3),
    (1036, 20, 3),
    (1059, 16, 3),
    (1078, 14, 3),
    (1095, 13, 3),
    (1111, 17, 3),
    (1131, 17, 3),
    (1151, 9, 3),
    (1163, 12, 3),
    (1178, 16, 3),
    (1197, 9, 2),
    (1208, 19, 3),
    (1230, 17, 3),
    (1250, 14, 3),
    (1267, 17, 3),
    (1287, 18, 3),
    (1308, 15, 3),
    (1326, 18, 3),
    (1347, 7, 3),
    (1357, 12, 3),
    (1372, 9, 3),
    (1384, 4, 4),
    (1392, 6, 2),
    (1400, 3, 2),
    (1405, 3, 2),
    (1410, 6, 2),
    (1418, 6, 2),
    (1426, 5, 2),
    (1433, 3, 2),
    (1438, 4, 2),
    (1444, 3, 4),
    (1451, 6, 2),
    (1459, 7, 3),
    (1469, 5, 2),
    (1476, 16, 3),
    (1495, 20, 3),
    (1518, 5, 2),
    (1525, 4, 4),
    (1533, 7, 2),
    (1542, 5, 3),
    (1550, 10, 3),
    (1563, 11, 3),
    (1577, 4, 3),
    (1584, 4, 3),
    (1591, 3, 2),
    (1596, 4, 2),
    (1602, 6, 3),
    (1611, 12, 3),
    (1626, 3, 2),
    (1631, 3, 4),
    (1638, 17, 3),
    (1658, 21, 3),
    (1682, 4, 4),
    (1690, 6, 3),
    (1699, 10, 3),
    (1712, 4, 3),
    (1719, 4, 2),
    (1725, 2, 1),
    (1728, 5, 2),
    (1735, 6, 2),
    (1743, 6, 2),
    (1751, 6, 2),
    (1759, 5, 2),
    (1766, 3, 2),
    (1771, 4, 2),
    (1777, 3, 4),
    (1784, 2, 3),
    (1789, 4, 4),
    (1797, 12, 3),
    (1812, 16, 3),
    (1831, 16, 3),
    (1850, 14, 3),
    (1867, 11, 3),
    (1881, 17, 3),
    (1901, 12, 3),
    (1916, 4, 4),
    (1924, 2, 3),
    (1929, 6, 2),
    (1937, 5, 2),
    (1944, 3, 1),
    (1948, 5, 2),
    (1955, 3, 3),
    (1961, 12, 3),
    (1976, 4, 3),
    (1983, 14, 3),
    (2000, 4, 3),
    (2007, 6, 2),
    (2015, 12, 3),
    (2030, 9, 3),
    (2042, 4, 2),
    (2048, 5, 2),
    (2055, 4, 2),
    (2061, 6, 2),
    (2069, 5, 2),
    (2076, 3, 2),
    (2081, 4, 2),
    (2087, 3, 3),
    (2093, 6, 2),
    (2101, 2, 3),
    (2106, 5, 2),
    (2113, 10, 3),
    (2126, 7, 3),
    (2136, 3, 3),
    (2142, 8, 3),
    (2153, 12, 3),
    (2168, 14, 3),
    (2185, 14, 3),
    (2202, 5, 2),
    (2209, 4, 4),
    (2217, 4, 2),
    (2223, 4, 3),
    (2230, 6, 2),
    (2238, 5, 2),
    (2245, 4, 2),
    (2251, 5, 2),
    (2258, 3, 2),
    (2263, 3, 4),
    (2270, 4, 4),
    (2278, 4, 4),
    (2286, 6, 2),
    (2294, 5, 2),
    (2301, 4, 2),
    (2307, 4, 2),
    (2313, 5, 2),
    (2320, 6, 2),
    (2328, 3, 2),
    (2333, 3, 4),
    (2340, 4, 4),
    (2348, 4, 4),
    (2356, 4, 2),
    (2362, 2, 1),
    (2365, 6, 2),
    (2373, 6, 2),
    (2381, 4, 3),
    (2388, 10, 3),
    (2401, 4, 3),
    (2408, 6, 2),
    (2416, 6, 2),
    (2424, 3, 2),
    (2429, 16, 3),
    (2448, 9, 3),
    (2460, 12, 3),
    (2475, 19, 3),
    (2497, 11, 3),
    (2511, 17, 3),
    (2531, 17, 3),
    (2551, 14, 3),
    (2568, 17, 3),
    (2588, 9, 3),
    (2600, 14, 3),
    (2617, 15, 3),
    (2635, 7, 3),
    (2645, 12, 3),
    (2660, 13, 3),
    (2676, 12, 3),
    (2691, 15, 3),
    (2709, 17, 3),
    (2729, 16, 3),
    (2748, 15, 3),
    (2766, 12, 3),
    (2781, 15, 3),
    (2799, 10, 3),
    (2812, 13, 3),
    (2828, 9, 3),
    (2840, 14, 3),
    (2857, 16, 3),
    (2876, 13, 3),
    (2892, 11, 3),
    (2906, 8, 3),
    (2917, 14, 3),
    (2934, 9, 3),
    (2946, 3, 4),
    (2953, 2, 3),
    (2958, 10, 3),
    (2971, 6, 2),
    (2979, 13, 3),
    (2995, 18, 3),
    (3016, 14, 3),
    (3033, 13, 3),
    (3049, 18, 3),
    (3070, 14, 3),
    (3087, 4, 4),
    (3095, 14, 3),
    (3112, 15, 3),
    (3130, 4, 3),
    (3137, 3, 3),
    (3143, 6, 2),
    (3151, 2, 3),
    (3156, 3, 3),
    (3162, 3, 2),
    (3167, 11, 3),
    (3181, 9, 3),
    (3193, 3, 4),
    (3200, 9, 3),
    (3212, 4, 4),
    (3220, 4, 3),
    (3227, 2, 2),
    (3231, 4, 2),
    (3237, 6, 2),
    (3245, 6, 2),
    (3253, 6, 2),
    (3261, 3, 2),
    (3266, 19, 3),
    (3288, 18, 3),
    (3309, 17, 3),
    (3329, 21, 3),
    (3353, 20, 3),
    (3376, 14, 3),
    (3393, 7, 1),
    (3401, 3, 4),
    (3408, 7, 3),
    (3418, 16, 2),
    (3436, 4, 3),
    (3443, 3, 3),
    (3449, 12, 3),
    (3464, 9, 3),
    (3476, 20, 3),
    (3499, 10, 3),
    (3512, 8, 3),
    (3523, 13, 5),
    (3541, 9, 3),
    (3553, 10, 3),
    (3566, 15, 3),
    (3584, 19, 5),
    (3608, 17, 5),
    (3630, 14, 3),
    (3647, 20, 5),
    (3672, 15, 3),
    (3690, 15, 5),
    (3710, 12, 5),
    (3727, 15, 3),
    (3745, 18, 5),
    (3768, 20, 3),
    (3791, 7, 3),
    (3801, 12, 3),
    (3816, 14, 3),
    (3833, 11, 5),
    (3849, 17, 5),
    (3871, 12, 3),
    (3886, 23, 5),
    (3914, 17, 5),
    (3936, 11, 3),
    (3950, 16, 5),
    (3971, 21, 3),
    (3995, 17, 3),
    (4015, 16, 3),
    (4034, 19, 5),
    (4058, 21, 3),
    (4082, 15, 5),
    (4102, 20, 3),
    (4125, 17, 5),
    (4147, 22, 3),
    (4172, 9, 6),
    (4187, 14, 3),
    (4204, 11, 3),
    (4218, 16, 5),
    (4239, 21, 3),
    (4263, 16, 5),
    (4284, 11, 6),
    (4301, 16, 3),
    (4320, 8, 3),
    (4331, 13, 3),
    (4347, 17, 3),
    (4367, 13, 3),
    (4383, 14, 3),
    (4400, 4, 4),
    (4408, 6, 2),
    (4416, 2, 2),
    (4420, 5, 2),
    (4427, 6, 2),
    (4435, 5, 2),
    (4442, 3, 2),
    (4447, 6, 2),
    (4455, 3, 4),
    (4462, 6, 2),
    (4470, 5, 2),
    (4477, 5, 2),
    (4484, 7, 2),
    (4493, 4, 4),
    (4501, 20, 3),
    (4524, 14, 3),
    (4541, 2, 3),
    (4546, 4, 4),
    (4554, 6, 2),
    (4562, 6, 2),
    (4570, 6, 3),
    (4579, 4, 2),
    (4585, 7, 3),
    (4595, 9, 3),
    (4607, 11, 3),
    (4621, 15, 3),
    (4639, 8, 3),
    (4650, 3, 2),
    (4655, 3, 4),
    (4662, 3, 2),
    (4667, 2, 2),
    (4671, 9, 2),
    (4682, 13, 3),
    (4698, 4, 3),
    (4705, 2, 3),
    (4710, 8, 3),
    (4721, 13, 3),
    (4737, 18, 3),
    (4758, 13, 3),
    (4774, 5, 3),
    (4782, 7, 3),
    (4792, 10, 3),
    (4805, 12, 3),
    (4820, 4, 4),
    (4828, 3, 2),
    (4833, 4, 1),
    (4838, 3, 4),
    (4845, 4, 3),
    (4852, 4, 4),
    (4860, 5, 3),
    (4868, 3, 2),
    (4873, 6, 2),
    (4881, 4, 3),
    (4888, 4, 3),
    (4895, 6, 3),
    (4904, 6, 2),
    (4912, 6, 2),
    (4920, 3, 2),
    (4925, 2, 3),
    (4930, 14, 3),
    (4947, 18, 3),
    (4968, 20, 3),
    (4991, 3, 3),
    (4997, 3, 2),
    (5002, 17, 3),
    (5022, 10, 3),
    (5035, 13, 3),
    (5051, 19, 3),
    (5073, 12, 3),
    (5088, 18, 3),
    (5109, 18, 3),
    (5130, 15, 3),
    (5148, 18, 3),
    (5169, 10, 3),
    (5182, 8, 3),
    (5193, 13, 3),
    (5209, 14, 3),
    (5226, 13, 3),
    (5242, 16, 3),
    (5261, 18, 3),
    (5282, 17, 3),
    (5302, 16, 3),
    (5321, 13, 3),
    (5337, 16, 3),
    (5356, 11, 3),
    (5370, 14, 3),
    (5387, 10, 3),
    (5400, 4, 3),
    (5407, 12, 3),
    (5422, 11, 3),
    (5436, 4, 3),
    (5443, 3, 3),
    (5449, 11, 3),
    (5463, 6, 2),
    (5471, 4, 2),
    (5477, 6, 2),
    (5485, 6, 2),
    (5493, 2, 3),
    (5498, 6, 2),
    (5506, 6, 2),
    (5514, 5, 2),
    (5521, 3, 2),
    (5526, 3, 4),
    (5533, 14, 3),
    (5550, 14, 3),
    (5567, 15, 3),
    (5585, 12, 3),
    (5600, 5, 2),
    (5607, 11, 3),
    (5621, 4, 4),
    (5629, 4, 3),
    (5636, 6, 3),
    (5645, 18, 3),
    (5666, 12, 3),
    (5681, 17, 3),
    (5701, 14, 3),
    (5718, 19, 3),
    (5740, 11, 3),
    (5754, 4, 4),
    (5762, 4, 3),
    (5769, 3, 3),
    (5775, 6, 3),
    (5784, 11, 3),
    (5798, 8, 3),
    (5809, 13, 3),
    (5825, 18, 3),
    (5846, 13, 3),
    (5862, 8, 3),
    (5873, 3, 3),
    (5879, 3, 3),
    (5885, 8, 3),
    (5896, 13, 3),
    (5912, 6, 3),
    (5921, 5, 2),
    (5928, 5, 3),
    (5936, 5, 2),
    (5943, 4, 2),
    (5949, 3, 1),
    (5953, 3, 2),
    (5958, 6, 2),
    (5966, 6, 2),
    (5974, 3, 2),
    (5979, 3, 4),
    (5986, 9, 3),
    (5998, 5, 2),
    (6005, 10, 6),
    (6021, 9, 3),
    (6033, 5, 3),
    (6041, 10, 3),
    (6054, 14, 3),
    (6071, 10, 3),
    (6084, 4, 4),
    (6092, 9, 3),
    (6104, 4, 4),
    (6112, 6, 2),
    (6120, 6, 2),
    (6128, 4, 3),
    (6135, 8, 3),
    (6146, 5, 2),
    (6153, 6, 2),
    (6161, 5, 2),
    (6168, 3, 2),
    (6173, 6, 2),
    (6181, 3, 4),
    (6188, 6, 2),
    (6196, 5, 2),
    (6203, 8, 1),
    (6212, 10, 3),
    (6225, 12, 3),
    (6240, 16, 3),
    (6259, 5, 3),
    (6267, 9, 3),
    (6279, 5, 2),
    (6286, 4, 4),
    (6294, 7, 3),
    (6304, 10, 3),
    (6317, 16, 3),
    (6336, 11, 3),
    (6350, 13, 3),
    (6366, 5, 3),
    (6374, 10, 3),
    (6387, 7, 3),
    (6397, 11, 3),
    (6411, 14, 3),
    (6428, 15, 3),
    (6446, 4, 2),
    (6452, 7, 2),
    (6461, 5, 2),
    (6468, 4, 4),
    (6476, 6, 2),
    (6484, 4, 2),
    (6490, 5, 3),
    (6498, 4, 3),
    (6505, 3, 2),
    (6510, 5, 3),
    (6518, 6, 3),
    (6527, 3, 3),
    (6533, 6, 3),
    (6542, 4, 3),
    (6549, 11, 3),
    (6563, 12, 1),
    (6576, 17, 3),
    (6596, 13, 3),
    (6612, 13, 3),
    (6628, 3, 4),
    (6635, 4, 4),
    (6643, 4, 4),
    (6651, 6, 3),
    (6660, 5, 2),
    (6667, 5, 3),
    (6675, 3, 4),
    (6682, 4, 4),
    (6690, 4, 4),
    (6698, 3, 4),
    (6705, 2, 2),
    (6709, 4, 4),
    (6717, 4, 4),
    (6725, 4, 2),
    (6731, 4, 2),
    (6737, 4, 2),
    (6743, 6, 2),
    (6751, 5, 2),
    (6758, 3, 2),
    (6763, 3, 4),
    (6770, 4, 4),
    (6778, 4, 4),
    (6786, 4, 2),
    (6792, 4, 2),
    (6798, 6, 2),
    (6806, 6, 2),
    (6814, 3, 2),
    (6819, 4, 2),
    (6825, 14, 3),
    (6842, 4, 2),
    (6848, 3, 3),
    (6854, 4, 3),
    (6861, 4, 4),
    (6869, 6, 2),
    (6877, 6, 2),
    (6885, 2, 3),
    (6890, 3, 5),
    (6898, 3, 3),
    (6904, 5, 2),
    (6911, 5, 2),
    (6918, 3, 2),
    (6923, 5, 2),
    (6930, 2, 3),
    (6935, 3, 4),
    (6942, 6, 2),
    (6950, 7, 3),
    (6960, 5, 3),
    (6968, 5, 2),
    (6975, 5, 2),
    (6982, 5, 3),
    (6990, 3, 1),
    (6994, 3, 3),
    (7000, 6, 3),
    (7009, 4, 3),
    (7016, 8, 3),
    (7027, 4, 3),
    (7034, 3, 3),
    (7040, 4, 3),
    (7047, 5, 3),
    (7055, 6, 3),
    (7064, 8, 3),
    (7075, 8, 3),
    (7086, 8, 3),
    (7097, 8, 3),
    (7108, 8, 3),
    (7119, 8, 3),
    (7130, 8, 3),
    (7141, 8, 3),
    (7152, 5, 3),
    (7160, 7, 3),
    (7170, 8, 3),
    (7181, 6, 3),
    (7190, 5, 2),
    (7197, 7, 3),
    (7207, 5, 2),
    (7214, 4, 4),
    (7222, 2, 3),
    (7227, 3, 3),
    (7233, 6, 3),
    (7242, 3, 3),
    (7248, 4, 3),
    (7255, 4, 1),
    (7260, 6, 3),
    (7269, 8, 3),
    (7280, 5, 2),
    (7287, 4, 4),
    (7295, 3, 1),
    (7299, 5, 3),
    (7307, 7, 3),
    (7317, 6, 2),
    (7325, 4, 2),
    (7331, 8, 3),
    (7342, 5, 3),
    (7350, 4, 3),
    (7357, 8, 3),
    (7368, 11, 2),
    (7381, 9, 3),
    (7393, 7, 3),
    (7403, 9, 3),
    (7415, 6, 3),
    (7424, 6, 3),
    (7433, 8, 3),
    (7444, 4, 3),
    (7451, 8, 3),
    (7462, 5, 3),
    (7470, 3, 2),
    (7475, 5, 3),
    (7483, 6, 3),
    (7492, 7, 3),
    (7502, 7, 3),
    (7512, 5, 2),
    (7519, 6, 3),
    (7528, 4, 2),
    (7534, 4, 3),
    (7541, 7, 3),
    (7551, 3, 4),
    (7558, 6, 3),
    (7567, 7, 3),
    (7577, 6, 3),
    (7586, 7, 3),
    (7596, 8, 3),
    (7607, 9, 3),
    (7619, 8, 3),
    (7630, 7, 3),
    (7640, 15, 3),
    (7658, 13, 3),
    (7674, 8, 3),
    (7685, 6, 3),
    (7694, 8, 3),
    (7705, 6, 3),
    (7714, 12, 3),
    (7729, 11, 3),
    (7743, 13, 3),
    (7759, 17, 3),
    (7779, 17, 3),
    (7799, 18, 3),
    (7820, 5, 3),
    (7828, 5, 3),
    (7836, 5, 3),
    (7844, 5, 3),
    (7852, 5, 3),
    (7860, 3, 4),
    (7867, 7, 6),
    (7880, 4, 3),
    (7887, 4, 4),
    (7895, 3, 3),
    (7901, 6, 3),
    (7910, 6, 3),
    (7919, 5, 3),
    (7927, 5, 3),
    (7935, 5, 3),
    (7943, 5, 3),
    (7951, 4, 3),
    (7958, 5, 3),
    (7966, 5, 3),
    (7974, 5, 3),
    (7982, 5, 3),
    (7990, 5, 3),
    (7998, 5, 3),
    (8006, 5, 3),
    (8014, 5, 3),
    (8022, 4, 3),
    (8029, 5, 3),
    (8037, 5, 3),
    (8045, 5, 3),
    (8053, 5, 3),
    (8061, 5, 3),
    (8069, 5, 3),
    (8077, 6, 3),
    (8086, 5, 3),
    (8094, 5, 3),
    (8102, 5, 3),
    (8110, 5, 3),
    (8118, 4, 3),
    (8125, 5, 3),
    (8133, 5, 3),
    (8141, 5, 3),
    (8149, 5, 3),
    (8157, 8, 3),
    (8168, 7, 3),
    (8178, 8, 3),
    (8189, 5, 3),
    (8197, 5, 3),
    (8205, 5, 3),
    (8213, 5, 3),
    (8221, 4, 3),
    (8228, 5, 3),
    (8236, 5, 3),
    (8244, 5, 3),
    (8252, 5, 3),
    (8260, 5, 3),
    (8268, 5, 3),
    (8276, 6, 3),
    (8285, 5, 2),
    (8292, 6, 2),
    (8300, 4, 4),
    (8308, 5, 3),
    (8316, 4, 3),
    (8323, 5, 3),
    (8331, 4, 1),
    (8336, 5, 3),
    (8344, 8, 3),
    (8355, 4, 3),
    (8362, 6, 3),
    (8371, 4, 3),
    (8378, 5, 3),
    (8386, 5, 3),
    (8394, 6, 3),
    (8403, 6, 2),
    (8411, 3, 3),
    (8417, 6, 3),
    (8426, 8, 3),
    (8437, 6, 3),
    (8446, 6, 3),
    (8455, 6, 3),
    (8464, 4, 6),
    (8474, 5, 3),
    (8482, 5, 2),
    (8489, 5, 3),
    (8497, 6, 2),
    (8505, 6, 2),
    (8513, 5, 2),
    (8520, 5, 3),
    (8528, 7, 3),
    (8538, 4, 2),
    (8544, 5, 2),
    (8551, 7, 3),
    (8561, 4, 2),
    (8567, 9, 2),
    (8578, 3, 4),
    (8585, 4, 2),
    (8591, 5, 3),
    (8599, 9, 3),
    (8611, 3, 2),
    (8616, 3, 3),
    (8622, 4, 3),
    (8629, 4, 2),
    (8635, 6, 3),
    (8644, 15, 3),
    (8662, 16, 3),
    (8681, 8, 2),
    (8691, 8, 3),
    (8702, 10, 3),
    (8715, 11, 3),
    (8729, 11, 3),
    (8743, 4, 3),
    (8750, 8, 3),
    (8761, 6, 3),
    (8770, 7, 3),
    (8780, 5, 3),
    (8788, 8, 3),
    (8799, 5, 1),
    (8805, 6, 3),
    (8814, 7, 3),
    (8824, 5, 1),
    (8830, 6, 1),
    (8837, 4, 3),
    (8844, 6, 3),
    (8853, 10, 3),
    (8866, 9, 3),
    (8878, 4, 3),
    (8885, 7, 3),
    (8895, 6, 3),
    (8904, 4, 4),
    (8912, 6, 3),
    (8921, 4, 2),
    (8927, 6, 3),
    (8936, 5, 3),
    (8944, 5, 3),
    (8952, 4, 4),
    (8960, 4, 3),
    (8967, 5, 3),
    (8975, 4, 3),
    (8982, 5, 3),
    (8990, 5, 3),
    (8998, 7, 3),
    (9008, 7, 3),
    (9018, 5, 3),
    (9026, 5, 3),
    (9034, 6, 3),
    (9043, 7, 3),
    (9053, 3, 3),
    (9059, 8, 3),
    (9070, 6, 3),
    (9079, 6, 3),
    (9088, 6, 3),
    (9097, 5, 3),
    (9105, 4, 6),
    (9115, 6, 3),
    (9124, 7, 3),
    (9134, 11, 3),
    (9148, 11, 3),
    (9162, 8, 3),
    (9173, 10, 3),
    (9186, 6, 2),
    (9194, 14, 3),
    (9211, 15, 3),
    (9229, 5, 3),
    (9237, 5, 3),
    (9245, 8, 3),
    (9256, 5, 3),
    (9264, 6, 3),
    (9273, 4, 3),
    (9280, 4, 3),
    (9287, 6, 3),
    (9296, 6, 3),
    (9305, 4, 3),
    (9312, 4, 3),
    (9319, 5, 3),
    (9327, 7, 3),
    (9337, 5, 2),
    (9344, 6, 2),
    (9352, 3, 2),
    (9357, 2, 3),
    (9362, 7, 3),
    (9372, 5, 3),
    (9380, 7, 3),
    (9390, 3, 2),
    (9395, 5, 2),
    (9402, 7, 3),
    (9412, 6, 3),
    (9421, 3, 4),
    (9428, 5, 3),
    (9436, 5, 3),
    (9444, 4, 3),
    (9451, 7, 3),
    (9461, 11, 3),
    (9475, 5, 3),
    (9483, 3, 2),
    (9488, 7, 2),
    (9497, 5, 3),
    (9505, 3, 2),
    (9510, 6, 2),
    (9518, 13, 3),
    (9534, 6, 3),
    (9543, 4, 2),
    (9549, 6, 3),
    (9558, 6, 3),
    (9567, 6, 1),
    (9574, 4, 4),
    (9582, 3, 2),
    (9587, 5, 3),
    (9595, 8, 3),
    (9606, 8, 3),
    (9617, 7, 3),
    (9627, 9, 3),
    (9639, 14, 3),
    (9656, 9, 3),
    (9668, 14, 3),
    (9685, 15, 3),
    (9703, 16, 3),
    (9722, 8, 3),
    (9733, 6, 3),
    (9742, 6, 3),
    (9751, 4, 4),
    (9759, 4, 2),
    (9765, 4, 3),
    (9772, 6, 2),
    (9780, 5, 3),
    (9788, 4, 3),
    (9795, 5, 3),
    (9803, 5, 3),
    (9811, 5, 3),
    (9819, 7, 3),
    (9829, 4, 2),
    (9835, 8, 3),
    (9846, 5, 3),
    (9854, 4, 3),
    (9861, 6, 2),
    (9869, 6, 3),
    (9878, 6, 2),
    (9886, 4, 3),
    (9893, 5, 2),
    (9900, 6, 3),
    (9909, 3, 2),
    (9914, 4, 2),
    (9920, 2, 3),
    (9925, 5, 3),
    (9933, 3, 4),
    (9940, 2, 3),
    (9945, 6, 2),
    (9953, 3, 3),
    (9959, 6, 3),
    (9968, 2, 3),
    (9973, 8, 3),
    (9984, 3, 3),
    (9990, 3, 3),
    (9996, 6, 3),
    (10005, 5, 2),
    (10012, 5, 3),
    (10020, 8, 3),
    (10031, 6, 3),
    (10040, 4, 3),
    (10047, 6, 3),
    (10056, 6, 3),
    (10065, 3, 2),
    (10070, 4, 3),
    (10077, 5, 2),
    (10084, 4, 4),
    (10092, 4, 3),
    (10099, 6, 3),
    (10108, 5, 3),
    (10116, 4, 2),
    (10122, 7, 2),
    (10131, 5, 2),
    (10138, 6, 3),
    (10147, 7, 3),
    (10157, 5, 3),
    (10165, 10, 3),
    (10178, 11, 3),
    (10192, 6, 1),
    (10199, 6, 3),
    (10208, 5, 3),
    (10216, 7, 3),
    (10226, 8, 3),
    (10237, 5, 3),
    (10245, 5, 3),
    (10253, 4, 3),
    (10260, 5, 3),
    (10268, 4, 3),
    (10275, 3, 2),
    (10280, 3, 2),
    (10285, 4, 2),
    (10291, 4, 3),
    (10298, 4, 1),
    (10303, 5, 3),
    (10311, 11, 3),
    (10325, 12, 3),
    (10340, 13, 3),
    (10356, 3, 2),
    (10361, 6, 3),
    (10370, 6, 3),
    (10379, 5, 3),
    (10387, 6, 3),
    (10396, 3, 4),
    (10403, 5, 3),
    (10411, 5, 2),
    (10418, 4, 3),
    (10425, 5, 3),
    (10433, 5, 3),
    (10441, 4, 2),
    (10447, 4, 4),
    (10455, 6, 3),
    (10464, 4, 3),
    (10471, 5, 3),
    (10479, 8, 3),
    (10490, 6, 2),
    (10498, 6, 3),
    (10507, 6, 2),
    (10515, 6, 3),
    (10524, 6, 3),
    (10533, 6, 3),
    (10542, 6, 3),
    (10551, 6, 3),
    (10560, 6, 2),
    (10568, 6, 3),
    (10577, 6, 3),
    (10586, 6, 3),
    (10595, 6, 3),
    (10604, 6, 3),
    (10613, 6, 3),
    (10622, 5, 3),
    (10630, 5, 3),
    (10638, 4, 4),
    (10646, 2, 3),
    (10651, 3, 3),
    (10657, 6, 2),
    (10665, 5, 2),
    (10672, 6, 2),
    (10680, 3, 3),
    (10686, 6, 2),
    (10694, 5, 2),
    (10701, 3, 2),
    (10706, 4, 2),
    (10712, 2, 3),
    (10717, 3, 3),
    (10723, 3, 3),
    (10729, 4, 3),
    (10736, 8, 3),
    (10747, 3, 3),
    (10753, 5, 3),
    (10761, 6, 3),
    (10770, 7, 3),
    (10780, 8, 3),
    (10791, 4, 6),
    (10801, 6, 3),
    (10810, 3, 4),
    (10817, 2, 3),
    (10822, 3, 3),
    (10828, 5, 3),
    (10836, 4, 2),
    (10842, 2, 3),
    (10847, 3, 3),
    (10853, 3, 3),
    (10859, 3, 3),
    (10865, 3, 3),
    (10871, 4, 3),
    (10878, 8, 3),
    (10889, 3, 3),
    (10895, 4, 3),
    (10902, 5, 3),
    (10910, 5, 3),
    (10918, 4, 4),
    (10926, 5, 1),
    (10932, 4, 3),
    (10939, 4, 3),
    (10946, 5, 3),
    (10954, 5, 3),
    (10962, 2, 1),
    (10965, 4, 3),
    (10972, 5, 3),
    (10980, 5, 3),
    (10988, 6, 3),
    (10997, 7, 3),
    (11007, 9, 3),
    (11019, 6, 3),
    (11028, 6, 3),
    (11037, 9, 3),
    (11049, 10, 3),
    (11062, 7, 3),
    (11072, 6, 3),
    (11081, 9, 6),
    (11096, 4, 6),
    (11106, 4, 3),
    (11113, 6, 3),
    (11122, 4, 2),
    (11128, 6, 3),
    (11137, 6, 2),
    (11145, 4, 3),
    (11152, 7, 3),
    (11162, 5, 3),
    (11170, 4, 3),
    (11177, 5, 2),
    (11184, 6, 3),
    (11193, 9, 3),
    (11205, 6, 3),
    (11214, 6, 3),
    (11223, 3, 4),
    (11230, 8, 3),
    (11241, 8, 3),
    (11252, 5, 3),
    (11260, 6, 3),
    (11269, 13, 3),
    (11285, 14, 3),
    (11302, 4, 4),
    (11310, 6, 3),
    (11319, 4, 4),
    (11327, 6, 3),
    (11336, 6, 2),
    (11344, 6, 3),
    (11353, 6, 3),
    (11362, 6, 2),
    (11370, 2, 3),
    (11375, 5, 2),
    (11382, 3, 2),
    (11387, 4, 2),
    (11393, 5, 2),
    (11400, 3, 3),
    (11406, 3, 4),
    (11413, 6, 2),
    (11421, 2, 3),
    (11426, 6, 3),
    (11435, 5, 3),
    (11443, 6, 3),
    (11452, 5, 3),
    (11460, 5, 2),
    (11467, 5, 2),
    (11474, 5, 3),
    (11482, 8, 3),
    (11493, 8, 3),
    (11504, 5, 2),
    (11511, 4, 3),
    (11518, 5, 2),
    (11525, 2, 3),
    (11530, 6, 3),
    (11539, 5, 3),
    (11547, 8, 3),
    (11558, 6, 2),
    (11566, 3, 3),
    (11572, 6, 3),
    (11581, 8, 3),
    (11592, 8, 3),
    (11603, 8, 3),
    (11614, 7, 3),
    (11624, 4, 2),
    (11630, 5, 2),
    (11637, 4, 4),
    (11645, 4, 2),
    (11651, 5, 3),
    (11659, 6, 2),
    (11667, 4, 4),
    (11675, 4, 3),
    (11682, 5, 3),
    (11690, 7, 3),
    (11700, 5, 3),
    (11708, 6, 3),
    (11717, 5, 3),
    (11725, 2, 3),
    (11730, 6, 2),
    (11738, 5, 2),
    (11745, 4, 2),
    (11751, 5, 2),
    (11758, 3, 2),
    (11763, 3, 4),
    (11770, 5, 2),
    (11777, 4, 4),
    (11785, 4, 4),
    (11793, 6, 2),
    (11801, 5, 2),
    (11808, 5, 2),
    (11815, 6, 2),
    (11823, 6, 2),
    (11831, 3, 2),
    (11836, 3, 4),
    (11843, 6, 2),
    (11851, 4, 2),
    (11857, 4, 2),
    (11863, 4, 4),
    (11871, 4, 4),
    (11879, 5, 3),
    (11887, 4, 3),
    (11894, 6, 3),
    (11903, 5, 3),
    (11911, 2, 3),
    (11916, 3, 3),
    (11922, 4, 3),
    (11929, 6, 2),
    (11937, 8, 3),
    (11948, 6, 3),
    (11957, 6, 2),
    (11965, 4, 3),
    (11972, 5, 3),
    (11980, 6, 3),
    (11989, 3, 3),
    (11995, 5, 2),
    (12002, 4, 3),
    (12009, 5, 3),
    (12017, 7, 3),
    (12027, 6, 3),
    (12036, 6, 3),
    (12045, 6, 3),
    (12054, 6, 3),
    (12063, 7, 3),
    (12073, 6, 3),
    (12082, 3, 3),
    (12088, 6, 3),
    (12097, 4, 3),
    (12104, 5, 6),
    (12115, 5, 3),
    (12123, 5, 3),
    (12131, 6, 1),
    (12138, 6, 1),
    (12145, 5, 3),
    (12153, 7, 3),
    (12163, 7, 3),
    (12173, 6, 2),
    (12181, 6, 2),
    (12189, 5, 3),
    (12197, 4, 1),
    (12202, 3, 2),
    (12207, 4, 3),
    (12214, 5, 3),
    (12222, 6, 3),
    (12231, 7, 3),
    (12241, 8, 3),
    (12252, 4, 3),
    (12259, 2, 3),
    (12264, 9, 3),
    (12276, 13, 3),
    (12292, 15, 3),
    (12310, 13, 3),
    (12326, 14, 3),
    (12343, 14, 3),
    (12360, 15, 3),
    (12378, 17, 3),
    (12398, 19, 3),
    (12420, 14, 3),
    (12437, 3, 3),
    (12443, 3, 3),
    (12449, 4, 3),
    (12456, 8, 3),
    (12467, 3, 3),
    (12473, 5, 3),
    (12481, 6, 3),
    (12490, 7, 3),
    (12500, 8, 3),
    (12511, 4, 6),
    (12521, 6, 3),
    (12530, 10, 3),
    (12543, 7, 3),
    (12553, 9, 3),
    (12565, 10, 3),
    (12578, 7, 3),
    (12588, 7, 3),
    (12598, 6, 3),
    (12607, 6, 3),
    (12616, 3, 4),
    (12623, 2, 3),
    (12628, 3, 3),
    (12634, 5, 3),
    (12642, 5, 3),
    (12650, 6, 3),
    (12659, 5, 3),
    (12667, 4, 2),
    (12673, 2, 3),
    (12678, 5, 3),
    (12686, 8, 3),
    (12697, 6, 3),
    (12706, 5, 3),
    (12714, 6, 2),
    (12722, 6, 3),
    (12731, 10, 3),
    (12744, 3, 3),
    (12750, 4, 3),
    (12757, 8, 3),
    (12768, 3, 3),
    (12774, 4, 3),
    (12781, 5, 3),
    (12789, 5, 3),
    (12797, 5, 3),
    (12805, 5, 3),
    (12813, 5, 3),
    (12821, 13, 3),
    (12837, 18, 3),
    (12858, 10, 3),
    (12871, 14, 3),
    (12888, 13, 3),
    (12904, 14, 3),
    (12921, 5, 3),
    (12929, 4, 4),
    (12937, 6, 3),
    (12946, 7, 3),
    (12956, 6, 3),
    (12965, 6, 1),
    (12972, 3, 3),
    (12978, 7, 3),
    (12988, 4, 3),
    (12995, 4, 1),
    (13000, 6, 3),
    (13009, 5, 3),
    (13017, 8, 3),
    (13028, 5, 3),
    (13036, 6, 3),
    (13045, 3, 3),
    (13051, 5, 3),
    (13059, 6, 3),
    (13068, 4, 4),
    (13076, 3, 3),
    (13082, 4, 3),
    (13089, 5, 3),
    (13097, 5, 3),
    (13105, 4, 1),
    (13110, 5, 3),
    (13118, 6, 3),
    (13127, 6, 2),
    (13135, 2, 1),
    (13138, 4, 3),
    (13145, 5, 3),
    (13153, 5, 3),
    (13161, 6, 3),
    (13170, 6, 3),
    (13179, 6, 3),
    (13188, 7, 3),
    (13198, 6, 3),
    (13207, 4, 3),
    (13214, 5, 3),
    (13222, 5, 3),
    (13230, 8, 3),
    (13241, 7, 3),
    (13251, 9, 6),
    (13266, 4, 6),
    (13276, 5, 3),
    (13284, 4, 2),
    (13290, 4, 3),
    (13297, 4, 3),
    (13304, 7, 3),
    (13314, 3, 3),
    (13320, 6, 3),
    (13329, 10, 3),
    (13342, 10, 3),
    (13355, 8, 3),
    (13366, 6, 3),
    (13375, 6, 3),
    (13384, 3, 2),
    (13389, 5, 3),
    (13397, 13, 3),
    (13413, 3, 4),
    (13420, 3, 3),
    (13426, 5, 2),
    (13433, 3, 3),
    (13439, 6, 1),
    (13446, 6, 3),
    (13455, 6, 2),
    (13463, 5, 3),
    (13471, 6, 3),
    (13480, 6, 3),
    (13489, 7, 3),
    (13499, 4, 3),
    (13506, 4, 3),
    (13513, 6, 3),
    (13522, 6, 3),
    (13531, 4, 4),
    (13539, 2, 3),
    (13544, 4, 4),
    (13552, 6, 3),
    (13561, 2, 2),
    (13565, 8, 3),
    (13576, 5, 3),
    (13584, 3, 5),
    (13592, 3, 6),
    (13601, 4, 5),
    (13610, 10, 3),
    (13623, 15, 3),
    (13641, 3, 5),
    (13649, 3, 6),
    (13658, 4, 5),
    (13667, 11, 3),
    (13681, 6, 3),
    (13690, 6, 3),
    (13699, 5, 3),
    (13707, 6, 2),
    (13715, 4, 6),
    (13725, 3, 3),
    (13731, 4, 5),
    (13740, 5, 5),
    (13750, 5, 2),
    (13757, 7, 3),
    (13767, 5, 3),
    (13775, 7, 3),
    (13785, 8, 3),
    (13796, 4, 2),
    (13802, 5, 5),
    (13812, 6, 5),
    (13823, 4, 3),
    (13830, 6, 2),
    (13838, 6, 2),
    (13846, 5, 3),
    (13854, 8, 5),
    (13867, 4, 3),
    (13874, 3, 2),
    (13879, 5, 3),
    (13887, 2, 3),
    (13892, 5, 3),
    (13900, 6, 3),
    (13909, 5, 3),
    (13917, 7, 3),
    (13927, 5, 5),
    (13937, 6, 3),
    (13946, 6, 3),
    (13955, 5, 5),
    (13965, 6, 3),
    (13974, 7, 3),
    (13984, 3, 4),
    (13991, 3, 5),
    (13999, 3, 3),
    (14005, 4, 3),
    (14012, 5, 5),
    (14022, 9, 5),
    (14036, 4, 5),
    (14045, 5, 3),
    (14053, 3, 3),
    (14059, 4, 3),
    (14066, 5, 3),
    (14074, 5, 3),
    (14082, 5, 3),
    (14090, 2, 3),
    (14095, 3, 3),
    (14101, 4, 3),
    (14108, 3, 3),
    (14114, 4, 2),
    (14120, 5, 3),
    (14128, 3, 5),
    (14136, 5, 3),
    (14144, 4, 3),
    (14151, 3, 3),
    (14157, 10, 3),
    (14170, 15, 3),
    (14188, 4, 3),
    (14195, 5, 5),
    (14205, 9, 5),
    (14219, 4, 5),
    (14228, 5, 3),
    (14236, 5, 3),
    (14244, 3, 3),
    (14250, 5, 3),
    (14258, 6, 3),
    (14267, 4, 3),
    (14274, 4, 4),
    (14282, 3, 2),
    (14287, 5, 3),
    (14295, 6, 5),
    (14306, 8, 5),
    (14319, 7, 3),
    (14329, 7, 3),
    (14339, 7, 3),
    (14349, 5, 3),
    (14357, 7, 3),
    (14367, 7, 3),
    (14377, 7, 3),
    (14387, 4, 3),
    (14394, 9, 3),
    (14406, 6, 6),
    (14418, 5, 5),
    (14428, 7, 3),
    (14438, 3, 3),
    (14444, 6, 3),
    (14453, 4, 5),
    (14462, 5, 3),
    (14470, 7, 5),
    (14482, 5, 3),
    (14490, 5, 3),
    (14498, 6, 5),
    (14509, 6, 5),
    (14520, 11, 3),
    (14534, 5, 3),
    (14542, 6, 3),
    (14551, 3, 3),
    (14557, 6, 3),
    (14566, 4, 5),
    (14575, 4, 4),
    (14583, 9, 3),
    (14595, 14, 3),
    (14612, 4, 3),
    (14619, 5, 3),
    (14627, 6, 3),
    (14636, 5, 3),
    (14644, 5, 3),
    (14652, 7, 3),
    (14662, 7, 3),
    (14672, 4, 3),
    (14679, 5, 5),
    (14689, 5, 3),
    (14697, 7, 6),
    (14710, 9, 3),
    (14722, 10, 5),
    (14737, 5, 3),
    (14745, 7, 5),
    (14757, 4, 3),
    (14764, 5, 5),
    (14774, 5, 3),
    (14782, 7, 6),
    (14795, 9, 3),
    (14807, 10, 5),
    (14822, 4, 3),
    (14829, 6, 2),
    (14837, 4, 3),
    (14844, 13, 3),
    (14860, 15, 3),
    (14878, 14, 3),
    (14895, 16, 3),
    (14914, 2, 2),
    (14918, 3, 1),
    (14922, 6, 3),
    (14931, 5, 3),
    (14939, 6, 3),
    (14948, 6, 3),
    (14957, 4, 6),
    (14967, 6, 3),
    (14976, 4, 6),
    (14986, 4, 4),
    (14994, 7, 3),
    (15004, 6, 3),
    (15013, 4, 6),
    (15023, 4, 4),
    (15031, 7, 6),
    (15044, 6, 3),
    (15053, 7, 6),
    (15066, 5, 6),
    (15077, 5, 3),
    (15085, 6, 3),
    (15094, 5, 3),
    (15102, 7, 3),
    (15112, 6, 3),
    (15121, 2, 3),
    (15126, 6, 2),
    (15134, 4, 3),
    (15141, 4, 3),
    (15148, 5, 2),
    (15155, 3, 2),
    (15160, 5, 3),
    (15168, 6, 2),
    (15176, 4, 3),
    (15183, 4, 3),
    (15190, 6, 3),
    (15199, 5, 2),
    (15206, 5, 3),
    (15214, 3, 4),
    (15221, 4, 2),
    (15227, 6, 2),
    (15235, 3, 3),
    (15241, 5, 3),
    (15249, 3, 2),
    (15254, 4, 3),
    (15261, 5, 3),
    (15269, 5, 3),
    (15277, 7, 3),
    (15287, 5, 3),
    (15295, 3, 3),
    (15301, 5, 2),
    (15308, 5, 2),
    (15315, 7, 2),
    (15324, 4, 3),
    (15331, 6, 3),
    (15340, 4, 4),
    (15348, 4, 3),
    (15355, 5, 3),
    (15363, 5, 3),
    (15371, 2, 3),
    (15376, 5, 3),
    (15384, 3, 3),
    (15390, 5, 3),
    (15398, 7, 3),
    (15408, 4, 2),
    (15414, 4, 2),
    (15420, 6, 3),
    (15429, 4, 3),
    (15436, 7, 3),
    (15446, 3, 3),
    (15452, 4, 3),
    (15459, 6, 2),
    (15467, 4, 3),
    (15474, 6, 2),
    (15482, 6, 3),
    (15491, 8, 3),
    (15502, 4, 2),
    (15508, 5, 3),
    (15516, 3, 3),
    (15522, 4, 2),
    (15528, 8, 3),
    (15539, 6, 3),
    (15548, 5, 3),
    (15556, 4, 3),
    (15563, 3, 2),
    (15568, 6, 1),
    (15575, 6, 1),
    (15582, 6, 3),
    (15591, 4, 3),
    (15598, 7, 3),
    (15608, 3, 4),
    (15615, 3, 2),
    (15620, 4, 2),
    (15626, 6, 3),
    (15635, 5, 3),
    (15643, 2, 2),
    (15647, 9, 3),
    (15659, 3, 2),
    (15664, 6, 3),
    (15673, 7, 3),
    (15683, 6, 3),
    (15692, 4, 1),
    (15697, 8, 3),
    (15708, 5, 3),
    (15716, 7, 3),
    (15726, 6, 3),
    (15735, 6, 3),
    (15744, 5, 3),
    (15752, 6, 2),
    (15760, 7, 3),
    (15770, 7, 3),
    (15780, 2, 2),
    (15784, 8, 3),
    (15795, 4, 4),
    (15803, 5, 2),
    (15810, 2, 3),
    (15815, 3, 3),
    (15821, 4, 3),
    (15828, 5, 3),
    (15836, 3, 3),
    (15842, 4, 3),
    (15849, 10, 3),
    (15862, 11, 3),
    (15876, 6, 3),
    (15885, 11, 3),
    (15899, 8, 3),
    (15910, 8, 3),
    (15921, 7, 3),
    (15931, 5, 3),
    (15939, 6, 3),
    (15948, 4, 3),
    (15955, 5, 3),
    (15963, 6, 3),
    (15972, 4, 3),
    (15979, 8, 3),
    (15990, 8, 3),
    (16001, 8, 3),
    (16012, 4, 3),
    (16019, 6, 3),
    (16028, 5, 3),
    (16036, 6, 3),
    (16045, 4, 4),
    (16053, 3, 2),
    (16058, 6, 3),
    (16067, 3, 4),
    (16074, 4, 3),
    (16081, 4, 4),
    (16089, 6, 3),
    (16098, 4, 4),
    (16106, 11, 3),
    (16120, 7, 3),
    (16130, 5, 1),
    (16136, 7, 3),
    (16146, 4, 1),
    (16151, 5, 3),
    (16159, 4, 3),
    (16166, 6, 3),
    (16175, 5, 3),
    (16183, 4, 3),
    (16190, 4, 5),
    (16199, 6, 2),
    (16207, 5, 3),
    (16215, 8, 3),
    (16226, 4, 3),
    (16233, 5, 3),
    (16241, 5, 3),
    (16249, 6, 3),
    (16258, 5, 2),
    (16265, 4, 3),
    (16272, 6, 3),
    (16281, 5, 3),
    (16289, 7, 3),
    (16299, 5, 3),
    (16307, 6, 3),
    (16316, 6, 3),
    (16325, 6, 3),
    (16334, 6, 3),
    (16343, 7, 3),
    (16353, 6, 3),
    (16362, 5, 3),
    (16370, 6, 3),
    (16379, 5, 3),
    (16387, 9, 3),
    (16399, 5, 3),
    (16407, 5, 3),
    (16415, 6, 1),
    (16422, 6, 1),
    (16429, 5, 3),
    (16437, 7, 3),
    (16447, 7, 3),
    (16457, 6, 2),
    (16465, 6, 2),
    (16473, 5, 3),
    (16481, 4, 1),
    (16486, 3, 2),
    (16491, 4, 3),
    (16498, 7, 3),
    (16508, 5, 3),
    (16516, 6, 3),
    (16525, 4, 3),
    (16532, 4, 3),
    (16539, 7, 3),
    (16549, 8, 3),
    (16560, 5, 3),
    (16568, 4, 3),
    (16575, 3, 2),
    (16580, 6, 3),
    (16589, 6, 3),
    (16598, 3, 4),
    (16605, 5, 3),
    (16613, 5, 3),
    (16621, 6, 3),
    (16630, 3, 2),
    (16635, 4, 2),
    (16641, 10, 3),
    (16654, 14, 3),
    (16671, 16, 3),
    (16690, 14, 3),
    (16707, 15, 3),
    (16725, 17, 3),
    (16745, 16, 3),
    (16764, 15, 3),
    (16782, 15, 3),
    (16800, 4, 2),
    (16806, 12, 3),
    (16821, 5, 3),
    (16829, 5, 3),
    (16837, 3, 3),
    (16843, 6, 3),
    (16852, 10, 3),
    (16865, 5, 3),
    (16873, 5, 3),
    (16881, 5, 3),
    (16889, 5, 3),
    (16897, 5, 3),
    (16905, 4, 4),
    (16913, 6, 3),
    (16922, 7, 3),
    (16932, 4, 1),
    (16937, 6, 3),
    (16946, 8, 3),
    (16957, 5, 3),
    (16965, 6, 3),
    (16974, 4, 4),
    (16982, 3, 3),
    (16988, 4, 1),
    (16993, 5, 3),
    (17001, 6, 3),
    (17010, 6, 3),
    (17019, 6, 3),
    (17028, 4, 3),
    (17035, 5, 3),
    (17043, 5, 3),
    (17051, 8, 3),
    (17062, 7, 3),
    (17072, 2, 3),
    (17077, 6, 2),
    (17085, 5, 3),
    (17093, 2, 3),
    (17098, 3, 3),
    (17104, 4, 3),
    (17111, 6, 2),
    (17119, 5, 3),
    (17127, 3, 3),
    (17133, 6, 2),
    (17141, 5, 2),
    (17148, 4, 3),
    (17155, 5, 3),
    (17163, 6, 3),
    (17172, 8, 3),
    (17183, 5, 3),
    (17191, 3, 2),
    (17196, 4, 3),
    (17203, 5, 3),
    (17211, 5, 3),
    (17219, 5, 3),
    (17227, 6, 3),
    (17236, 5, 3),
    (17244, 7, 3),
    (17254, 4, 2),
    (17260, 4, 1),
    (17265, 6, 3),
    (17274, 8, 3),
    (17285, 5, 3),
    (17293, 4, 3),
    (17300, 3, 4),
    (17307, 6, 3),
    (17316, 5, 3),
    (17324, 6, 2),
    (17332, 4, 2),
    (17338, 8, 3),
    (17349, 13, 3),
    (17365, 3, 2),
    (17370, 5, 2),
    (17377, 6, 2),
    (17385, 6, 2),
    (17393, 3, 3),
    (17399, 6, 3),
    (17408, 4, 3),
    (17415, 5, 3),
    (17423, 4, 3),
    (17430, 5, 3),
    (17438, 4, 3),
    (17445, 5, 3),
    (17453, 5, 3),
    (17461, 7, 3),
    (17471, 7, 3),
    (17481, 5, 3),
    (17489, 13, 3),
    (17505, 6, 3),
    (17514, 8, 3),
    (17525, 4, 3),
    (17532, 5, 3),
    (17540, 3, 3),
    (17546, 4, 3),
    (17553, 5, 6),
    (17564, 6, 2),
    (17572, 3, 1),
    (17576, 4, 3),
    (17583, 6, 3),
    (17592, 4, 4),
    (17600, 6, 3),
    (17609, 9, 3),
    (17621, 4, 3),
    (17628, 5, 3),
    (17636, 6, 6),
    (17648, 5, 3),
    (17656, 6, 6),
    (17668, 5, 3),
    (17676, 6, 3),
    (17685, 8, 3),
    (17696, 10, 3),
    (17709, 5, 3),
    (17717, 6, 3),
    (17726, 8, 3),
    (17737, 10, 3),
    (17750, 3, 3),
    (17756, 6, 3),
    (17765, 6, 3),
    (17774, 4, 3),
    (17781, 5, 3),
    (17789, 4, 4),
    (17797, 6, 3),
    (17806, 6, 3),
    (17815, 6, 3),
    (17824, 4, 3),
    (17831, 5, 3),
    (17839, 15, 2),
    (17856, 11, 2),
    (17869, 5, 2),
    (17876, 3, 3),
    (17882, 4, 3),
    (17889, 6, 3),
    (17898, 4, 3),
    (17905, 7, 3),
    (17915, 7, 3),
    (17925, 5, 3),
    (17933, 5, 3),
    (17941, 7, 3),
    (17951, 7, 3),
    (17961, 6, 3),
    (17970, 8, 3),
    (17981, 9, 3),
    (17993, 9, 3),
    (18005, 10, 3),
    (18018, 6, 3),
    (18027, 6, 3),
    (18036, 6, 3),
    (18045, 4, 3),
    (18052, 10, 3),
    (18065, 11, 3),
    (18079, 6, 3),
    (18088, 11, 3),
    (18102, 8, 3),
    (18113, 8, 3),
    (18124, 7, 3),
    (18134, 3, 3),
    (18140, 4, 3),
    (18147, 3, 3),
    (18153, 4, 2),
    (18159, 4, 2),
    (18165, 4, 2),
    (18171, 4, 3),
    (18178, 6, 3),
    (18187, 7, 3),
    (18197, 4, 3),
    (18204, 7, 3),
    (18214, 7, 3),
    (18224, 7, 3),
    (18234, 7, 3),
    (18244, 7, 3),
    (18254, 5, 3),
    (18262, 5, 3),
    (18270, 7, 3),
    (18280, 6, 3),
    (18289, 8, 3),
    (18300, 9, 3),
    (18312, 9, 3),
    (18324, 10, 3),
    (18337, 6, 3),
    (18346, 6, 3),
    (18355, 6, 3),
    (18364, 5, 3),
    (18372, 6, 3),
    (18381, 5, 3),
    (18389, 7, 3),
    (18399, 6, 3),
    (18408, 5, 2),
    (18415, 6, 3),
    (18424, 3, 2),
    (18429, 4, 3),
    (18436, 6, 2),
    (18444, 6, 2),
    (18452, 3, 2),
    (18457, 4, 3),
    (18464, 6, 3),
    (18473, 3, 4),
    (18480, 6, 3),
    (18489, 9, 3),
    (18501, 5, 2),
    (18508, 8, 2),
    (18518, 6, 2),
    (18526, 11, 3),
    (18540, 8, 3),
    (18551, 6, 3),
    (18560, 5, 3),
    (18568, 6, 3),
    (18577, 5, 2),
    (18584, 5, 2),
    (18591, 5, 2),
    (18598, 6, 3),
    (18607, 8, 3),
    (18618, 6, 3),
    (18627, 4, 3),
    (18634, 4, 3),
    (18641, 3, 3),
    (18647, 6, 3),
    (18656, 6, 3),
    (18665, 4, 4),
    (18673, 7, 3),
    (18683, 4, 3),
    (18690, 6, 3),
    (18699, 5, 3),
    (18707, 8, 3),
    (18718, 12, 3),
    (18733, 12, 3),
    (18748, 14, 3),
    (18765, 9, 3),
    (18777, 13, 3),
    (18793, 15, 3),
    (18811, 6, 3),
    (18820, 4, 3),
    (18827, 8, 3),
    (18838, 7, 3),
    (18848, 5, 3),
    (18856, 7, 3),
    (18866, 8, 3),
    (18877, 4, 4),
    (18885, 4, 2),
    (18891, 5, 2),
    (18898, 6, 2),
    (18906, 5, 3),
    (18914, 16, 3),
    (18933, 17, 3),
    (18953, 4, 3),
    (18960, 4, 3),
    (18967, 6, 2),
    (18975, 4, 3),
    (18982, 5, 2),
    (18989, 6, 2),
    (18997, 5, 2),
    (19004, 3, 2),
    (19009, 5, 3),
    (19017, 6, 2),
    (19025, 5, 3),
    (19033, 6, 3),
    (19042, 3, 4),
    (19049, 6, 2),
    (19057, 5, 3),
    (19065, 5, 3),
    (19073, 5, 3),
    (19081, 6, 3),
    (19090, 8, 3),
    (19101, 6, 3),
    (19110, 5, 3),
    (19118, 5, 2),
    (19125, 3, 2),
    (19130, 5, 2),
    (19137, 4, 4),
    (19145, 7, 3),
    (19155, 11, 3),
    (19169, 13, 3),
    (19185, 14, 3),
    (19202, 5, 3),
    (19210, 4, 2),
    (19216, 5, 2),
    (19223, 7, 2),
    (19232, 10, 3),
    (19245, 6, 3),
    (19254, 8, 3),
    (19265, 6, 3),
    (19274, 5, 2),
    (19281, 5, 3),
    (19289, 4, 4),
    (19297, 5, 3),
    (19305, 6, 2),
    (19313, 4, 3),
    (19320, 5, 3),
    (19328, 5, 3),
    (19336, 4, 2),
    (19342, 7, 3),
    (19352, 4, 3),
    (19359, 4, 3),
    (19366, 5, 3),
    (19374, 5, 3),
    (19382, 6, 3),
    (19391, 10, 2),
    (19403, 8, 2),
    (19413, 10, 3),
    (19426, 6, 2),
    (19434, 5, 2),
    (19441, 9, 3),
    (19453, 4, 3),
    (19460, 6, 2),
    (19468, 8, 2),
    (19478, 12, 6),
    (19496, 13, 6),
    (19515, 12, 6),
    (19533, 13, 6),
    (19552, 8, 2),
    (19562, 15, 3),
    (19580, 16, 3),
    (19599, 3, 2),
    (19604, 5, 3),
    (19612, 3, 3),
    (19618, 6, 3),
    (19627, 5, 3),
    (19635, 6, 3),
    (19644, 6, 1),
    (19651, 4, 1),
    (19656, 3, 4),
    (19663, 5, 3),
    (19671, 5, 6),
    (19682, 5, 6),
    (19693, 4, 4),
    (19701, 5, 3),
    (19709, 5, 3),
    (19717, 4, 4),
    (19725, 6, 6),
    (19737, 6, 6),
    (19749, 6, 6),
    (19761, 6, 6),
    (19773, 7, 3),
    (19783, 5, 2),
    (19790, 6, 3),
    (19799, 5, 3),
    (19807, 6, 3),
    (19816, 6, 3),
    (19825, 3, 4),
    (19832, 4, 4),
    (19840, 2, 3),
    (19845, 2, 3),
    (19850, 6, 3),
    (19859, 4, 4),
    (19867, 4, 3),
    (19874, 5, 3),
    (19882, 4, 3),
    (19889, 5, 3),
    (19897, 3, 4),
    (19904, 5, 3),
    (19912, 5, 3),
    (19920, 2, 2),
    (19924, 5, 3),
    (19932, 5, 3),
    (19940, 4, 3),
    (19947, 4, 3),
    (19954, 5, 3),
    (19962, 4, 4),
    (19970, 6, 3),
    (19979, 6, 3),
    (19988, 5, 3),
    (19996, 5, 3),
    (20004, 4, 4),
    (20012, 6, 3),
    (20021, 6, 3),
    (20030, 5, 3),
    (20038, 4, 3),
    (20045, 6, 3),
    (20054, 6, 2),
    (20062, 4, 2),
    (20068, 5, 2),
    (20075, 3, 2),
    (20080, 3, 2),
    (20085, 3, 4),
    (20092, 4, 2),
    (20098, 4, 4),
    (20106, 4, 4),
    (20114, 4, 2),
    (20120, 4, 2),
    (20126, 6, 2),
    (20134, 6, 2),
    (20142, 3, 2),
    (20147, 4, 2),
    (20153, 6, 3),
    (20162, 4, 2),
    (20168, 3, 4),
    (20175, 4, 2),
    (20181, 7, 3),
    (20191, 4, 4),
    (20199, 4, 4),
    (20207, 3, 3),
    (20213, 4, 3),
];
