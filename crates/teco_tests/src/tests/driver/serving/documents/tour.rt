//! Examples of the pages, made by `tools/rows --write`.

pub(super) const EXAMPLES: &str = "
    // 1. Look, change, write
    Y$$HT$$FSeggs$six eggs$$HT$$EX$$ => **Buy milk\nBuy eggs\nCall Anna\nBuy bread\n**Buy milk\nBuy six eggs\nCall Anna\nBuy bread\n* => Buy milk\nBuy six eggs\nCall Anna\nBuy bread\n => Buy milk\nBuy eggs\nCall Anna\nBuy bread\n => prompt exit
    // 2. The pointer
    Y.=Z=$$2L.=$$T$$IMaybe $0TT$$K0LT$${$${$$0LT$$ => *0\n38\n*18\n*Call Anna\n*Maybe Call Anna\n*Maybe Buy bread\n***Call Anna\n* => ? => Buy milk\nBuy eggs\nCall Anna\nBuy bread\n => prompt
    // 3. A loop
    Y<FSBuy$Get$;>HT$$J<.-Z;I- $L>HT$$J3<D>$$HT$$2{$$EX$$ => *Get milk\nGet eggs\nCall Anna\nGet bread\n*- Get milk\n- Get eggs\n- Call Anna\n- Get bread\n**et milk\n- Get eggs\n- Call Anna\n- Get bread\n** => - Get milk\n- Get eggs\n- Call Anna\n- Get bread\n => Buy milk\nBuy eggs\nCall Anna\nBuy bread\n => prompt exit
    // 4. Registers and a conditional
    Y<SBuy$;%A$>QA=$$JXBZJGBHT$$J<.-Z;0A-\x1eC\"EI(phone) $'L>HT$$ => *3\n*Buy milk\nBuy eggs\nCall Anna\nBuy bread\nBuy milk\n*Buy milk\nBuy eggs\n(phone) Call Anna\nBuy bread\nBuy milk\n* => ? => Buy milk\nBuy eggs\nCall Anna\nBuy bread\n => prompt
    // 5. A macro
    @\x15D/0LXAKZJGA/$$YSeggs$MDHT$$@\x15P/UN0LQN<I!$>I $/$$JSAnna$3MPHT$$EX$$ => **Buy milk\nCall Anna\nBuy bread\nBuy eggs\n**Buy milk\n!!! Call Anna\nBuy bread\nBuy eggs\n* => Buy milk\n!!! Call Anna\nBuy bread\nBuy eggs\n => Buy milk\nBuy eggs\nCall Anna\nBuy bread\n => prompt exit
    // 6. A program for all pages
    Y<J0UN<.-Z; %N\\ I. $ L>-1-\x0e; P>EX$$ => => 1. Buy milk\n2. Call Anna\n\x0c1. Buy bread\n2. Buy eggs\n => Buy milk\nCall Anna\n\x0cBuy bread\nBuy eggs\n => exit
    // 7. Back and forth
    Y<J0UN<.-Z;%N\\I. $L>-1-\x0e;P>$$HT$$2{$$2}$$HT$$2{$$13~$$HT$${$${$${$$ => **1. Buy bread\n2. Buy eggs\n***1. Buy bread\n2. Buy eggs\n***1. Buy milk\nCall Anna\n***?NTU\n* => ? => Buy milk\nCall Anna\n\x0cBuy bread\nBuy eggs\n => prompt
    // 8. When it goes wrong
    YSeggs$T$$FSmilk$beer$$.=$$JFSmilk$beer$$0TT$$99J$$1\"G3=$$EX$$ => *\n*?SRH\n*0\n**Buy beer\n*?POP\n*3\n?UTC\n* => Buy beer\nBuy eggs\nCall Anna\nBuy bread\n => Buy milk\nBuy eggs\nCall Anna\nBuy bread\n => prompt exit
    ";
